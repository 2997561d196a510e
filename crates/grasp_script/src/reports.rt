//! Writing reports.

ghost use Rattle.std.specs.Prelude.{◌≡◌, ◌++◌, ◌∷◌, [], OnOk, OnErr, IfOk, Result, codes, string_bytes};
ghost use Rattle.grasp_cbor.specs.Extends.{Extends};
ghost use Rattle.grasp_agent.specs.declared.back.ReturnFault.{ReturnFault};
ghost use Rattle.grasp_agent.specs.declared.want.WantFault.{WantFault};
ghost use Rattle.grasp_text.specs.Words.{spaced};
ghost use Rattle.grasp_script.specs.Reports.{want_words, return_words, report_words, made_words, told_report};

use crate::calls::push_call;
use crate::replies::{push_count, push_reply};
use grasp_agent::{ReturnFault, WantFault};
use grasp_cbor::{Chars, OutOfMemory};
use grasp_model_network::Report;
use grasp_text::{push_number, push_prefix, push_word};
use std::alloc::Global;

/// The report of an event: its line, the call that the node's agent made, ` = `, and what the event came to.
#[tactic(auto, using(crate::proofs::Pushed::pushes))]
pub fn told_report(alloc: Global, line: &Chars, report: &Report) -> Result<Chars, OutOfMemory>
    ensures { IfOk result (λ text. text ≡ told_report line.now report.now) }
{
    let mut out = String::from_str(alloc, line.text())?;
    push_told(alloc, &mut out, report)?;
    Chars::of(alloc, out.as_str())
}

/// Appends the part of a report behind the event's line.
#[tactic(auto, using(crate::proofs::Pushed::pushes))]
fn push_told(alloc: Global, out: &mut String, report: &Report) -> Result<(), OutOfMemory>
    ensures text { OnOk result
        (string_bytes out.new ≡ string_bytes out.old ++ spaced (made_words report.now ++ codes "=" ∷ report_words report.now)) }
    ensures err { OnErr result (Extends (string_bytes out.old) (string_bytes out.new)) }
{
    push_made(alloc, out, report)?;
    push_told_answer(alloc, out, report)
}

/// Appends the call that a node's agent made, each word behind a blank.
fn push_made(alloc: Global, out: &mut String, report: &Report) -> Result<(), OutOfMemory>
    ensures text { OnOk result (string_bytes out.new ≡ string_bytes out.old ++ spaced (made_words report.now)) }
    ensures err { OnErr result (Extends (string_bytes out.old) (string_bytes out.new)) }
{
    match report {
        Report::Agent { call, reply: _ } => push_call(alloc, out, call),
        Report::Reply(_) => Ok(()),
        Report::Nothing => Ok(()),
        Report::Reading(_) => Ok(()),
        Report::Want(_) => Ok(()),
        Report::Return(_) => Ok(()),
        Report::Sent(_) => Ok(()),
    }
}

/// Appends ` =` and what an event came to, each word behind a blank.
#[tactic(auto, using(crate::proofs::Pushed::pushes))]
fn push_told_answer(alloc: Global, out: &mut String, report: &Report) -> Result<(), OutOfMemory>
    ensures text { OnOk result (string_bytes out.new ≡ string_bytes out.old ++ spaced (codes "=" ∷ report_words report.now)) }
    ensures err { OnErr result (Extends (string_bytes out.old) (string_bytes out.new)) }
{
    push_word(out, "=")?;
    push_answer(alloc, out, report)
}

/// Appends whether an agent took a want, each word behind a blank. After an `Err` a part of them may have been appended.
#[tactic(auto, using(crate::proofs::Pushed::pushes))]
pub fn push_want(out: &mut String, taken: &Result<(), WantFault>) -> Result<(), OutOfMemory>
    ensures text { OnOk result (string_bytes out.new ≡ string_bytes out.old ++ spaced (want_words taken.now)) }
    ensures err { OnErr result (Extends (string_bytes out.old) (string_bytes out.new)) }
{
    match taken {
        Ok(()) => push_word(out, "ok"),
        Err(WantFault::Busy { length, longest }) => {
            push_count(out, "busy", u64::from(*length))?;
            push_number(out, u64::from(*longest))
        }
        Err(WantFault::Full) => push_word(out, "full"),
    }
}

/// Appends whether an agent took a return, each word behind a blank. After an `Err` a part of them may have been appended.
#[tactic(auto, using(crate::proofs::Pushed::pushes))]
pub fn push_return(
    alloc: Global,
    out: &mut String,
    taken: &Result<(), ReturnFault>,
) -> Result<(), OutOfMemory>
    ensures text { OnOk result (string_bytes out.new ≡ string_bytes out.old ++ spaced (return_words taken.now)) }
    ensures err { OnErr result (Extends (string_bytes out.old) (string_bytes out.new)) }
{
    match taken {
        Ok(()) => push_word(out, "ok"),
        Err(ReturnFault::Busy { prefix }) => {
            push_word(out, "busy")?;
            push_prefix(alloc, out, *prefix)
        }
        Err(ReturnFault::NotFree) => push_word(out, "notfree"),
        Err(ReturnFault::Full) => push_word(out, "full"),
    }
}

/// Appends what an event came to, each word behind a blank.
fn push_answer(alloc: Global, out: &mut String, report: &Report) -> Result<(), OutOfMemory>
    ensures text { OnOk result (string_bytes out.new ≡ string_bytes out.old ++ spaced (report_words report.now)) }
    ensures err { OnErr result (Extends (string_bytes out.old) (string_bytes out.new)) }
{
    match report {
        Report::Reply(reply) => push_reply(alloc, out, reply),
        Report::Agent { call: _, reply } => push_reply(alloc, out, reply),
        Report::Nothing => push_word(out, "nothing"),
        Report::Reading(millis) => push_number(out, *millis),
        Report::Want(taken) => push_want(out, taken),
        Report::Return(taken) => push_return(alloc, out, taken),
        Report::Sent(outputs) => push_count(out, "sent", *outputs),
    }
}
