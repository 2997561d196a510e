//! Writing what an event came to.

ghost use Rattle.std.specs.Prelude.{◌≡◌, ◌++◌, OnOk, OnErr, string_bytes};
ghost use Rattle.grasp_cbor.specs.Extends.{Extends};
ghost use Rattle.grasp_text.specs.Words.{spaced};
ghost use Rattle.grasp_script.specs.Reports.{report_words};

use grasp_cbor::OutOfMemory;
use grasp_model_network::Report;
use grasp_script::{push_count, push_reply, push_return, push_want};
use grasp_text::{push_number, push_word};
use std::alloc::Global;

/// Appends what an event came to, each word behind a blank.
pub(crate) fn push_answer(
    alloc: Global,
    out: &mut String,
    report: &Report,
) -> Result<(), OutOfMemory>
    ensures text { OnOk result (string_bytes out.new ≡ string_bytes out.old ++ spaced (report_words report.now)) }
    ensures err { OnErr result (Extends (string_bytes out.old) (string_bytes out.new)) }
{
    match report {
        Report::Reply(reply) => push_reply(alloc, out, reply),
        Report::Agent { call: _, reply } => push_reply(alloc, out, reply),
        Report::Nothing => push_word(out, "nothing"),
        Report::Reading(millis) => push_number(out, *millis),
        Report::Want(taken) => push_want(out, taken),
        Report::Return(taken) => push_return(alloc, out, taken),
        Report::Sent(outputs) => push_count(out, "sent", *outputs),
    }
}
