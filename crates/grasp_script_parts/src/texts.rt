//! Calls, what events came to, and states of nodes, as text.

ghost use Rattle.std.specs.Prelude.{◌≡◌, List, ℕ, IfOk};
ghost use Rattle.grasp_text.specs.Words.{joined, spaced};
ghost use Rattle.grasp_script.specs.Calls.{call_words};
ghost use Rattle.grasp_script.specs.Reports.{report_words, state_words};

use crate::pushing::push_answer;
use grasp_agent::PrefixAgent;
use grasp_cbor::{Chars, OutOfMemory};
use grasp_model_network::Report;
use grasp_script::{push_call, push_pool};
use grasp_types::Call;
use std::alloc::Global;

/// The words of a call as they stand in a script, with one blank between two. A peer is told by its node's number, and by `-` where it is the
/// locator of none.
pub fn call_text(alloc: Global, call: &Call) -> Result<Chars, OutOfMemory>
    ensures { IfOk result (λ text. text ≡ joined (call_words call.now)) }
{
    let mut out = String::new(alloc);
    push_call(alloc, &mut out, call)?;
    unspaced(alloc, out.as_str())
}

/// What stands behind ` = ` in an event's report: the words of what it came to, with one blank between two.
pub fn answer_text(alloc: Global, report: &Report) -> Result<Chars, OutOfMemory>
    ensures { IfOk result (λ text. text ≡ joined (report_words report.now)) }
{
    let mut out = String::new(alloc);
    push_answer(alloc, &mut out, report)?;
    unspaced(alloc, out.as_str())
}

/// What stands behind ` = ` in the report of a node's state: the words of its agent's pool, with one blank between two.
pub fn state_text(alloc: Global, agent: &PrefixAgent) -> Result<Chars, OutOfMemory>
    ensures { IfOk result (λ text. text ≡ joined (state_words agent.now.pool)) }
{
    let mut out = String::new(alloc);
    push_pool(alloc, &mut out, agent.pool())?;
    unspaced(alloc, out.as_str())
}

/// The text without the blank with which it begins. Of words that stand behind blanks it is the words with one blank between two.
fn unspaced(alloc: Global, text: &str) -> Result<Chars, OutOfMemory>
    ensures { (words : List (List ℕ)) → text.now ≡ spaced words → IfOk result (λ out. out ≡ joined words) }
{
    match text.strip_prefix(' ') {
        Some(rest) => Chars::of(alloc, rest),
        None => Chars::of(alloc, text),
    }
}
