//! Writing the reports of questions.

ghost use Rattle.std.specs.Prelude.{◌≡◌, ◌++◌, ◌∷◌, OnOk, OnErr, IfOk, codes, string_bytes};
ghost use Rattle.grasp_cbor.specs.Extends.{Extends};
ghost use Rattle.grasp_text.specs.Words.{spaced};
ghost use Rattle.grasp_script_doubts.specs.Reports.{asked_words, told_ask};

use grasp_cbor::{Chars, OutOfMemory};
use grasp_doubter::AskFault;
use grasp_text::{push_prefix, push_word};
use std::alloc::Global;

/// The report of a question: its line, ` = ` and whether the doubter takes it.
pub fn told_ask(
    alloc: Global,
    line: &Chars,
    asked: &Result<(), AskFault>,
) -> Result<Chars, OutOfMemory>
    ensures { IfOk result (λ text. text ≡ told_ask line.now asked.now) }
{
    let mut out = String::from_str(alloc, line.text())?;
    push_told(alloc, &mut out, asked)?;
    Chars::of(alloc, out.as_str())
}

/// Appends the part of the report behind the line.
#[tactic(auto, using(grasp_script::proofs::Pushed::pushes))]
fn push_told(
    alloc: Global,
    out: &mut String,
    asked: &Result<(), AskFault>,
) -> Result<(), OutOfMemory>
    ensures text { OnOk result (string_bytes out.new ≡ string_bytes out.old ++ spaced (codes "=" ∷ asked_words asked.now)) }
    ensures err { OnErr result (Extends (string_bytes out.old) (string_bytes out.new)) }
{
    push_word(out, "=")?;
    push_asked(alloc, out, asked)
}

/// Appends whether a doubter takes a question, each word behind a blank.
#[tactic(auto, using(grasp_script::proofs::Pushed::pushes))]
fn push_asked(
    alloc: Global,
    out: &mut String,
    asked: &Result<(), AskFault>,
) -> Result<(), OutOfMemory>
    ensures text { OnOk result (string_bytes out.new ≡ string_bytes out.old ++ spaced (asked_words asked.now)) }
    ensures err { OnErr result (Extends (string_bytes out.old) (string_bytes out.new)) }
{
    match asked {
        Ok(()) => push_word(out, "ok"),
        Err(AskFault::Busy { prefix }) => {
            push_word(out, "busy")?;
            push_prefix(alloc, out, *prefix)
        }
        Err(AskFault::NotDoubtful) => push_word(out, "notdoubtful"),
        Err(AskFault::NotGiven) => push_word(out, "notgiven"),
    }
}
