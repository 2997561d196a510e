//! What a line says that its node answered.

ghost use Rattle.std.specs.Prelude.{◌≡◌, ◌↔◌, ◌++◌, ◌∷◌, [], List, ℕ, IfOk, IsTrue, OnOk, codes, string_bytes};
ghost use Rattle.grasp_audit.specs.Told.{IsWritten};
ghost use Rattle.grasp_record.specs.Answers.{told_words};
ghost use Rattle.grasp_record.specs.Dividing.{IsDivided};
ghost use Rattle.grasp_record.specs.declared.line.RecordLine.{RecordLine};
ghost use Rattle.grasp_script.specs.Reports.{report_words};
ghost use Rattle.grasp_text.specs.Words.{joined, spaced, words_of};

use crate::numbers::report_fits;
use crate::split::are_same;
use grasp_cbor::OutOfMemory;
use grasp_model_network::Report;
use grasp_script::{push_count, push_reply, push_return, push_want};
use grasp_text::{push_number, push_word};
use memchr::memmem;
use std::alloc::Global;

/// What stands behind the first ` =` of a record's line.
pub(crate) fn told_part(text: &[u8]) -> &[u8]
    ensures { (front back : List (List ℕ)) → IsDivided (words_of text.now) front back → result.now ≡ 32 ∷ joined back }
{
    match memmem::find(text, b" = ") {
        Some(at) => &text[at + 2..],
        None => &[],
    }
}

/// Whether a report is, in words, what the line says.
pub(crate) fn tells_report(alloc: Global, text: &[u8], report: &Report) -> Result<bool, OutOfMemory>
    ensures { IfOk result (λ is_so. (x : RecordLine) → IsWritten text.now x → IsTrue is_so ↔ (report_words report.now ≡ told_words x.answer)) }
{
    report_fits(report);
    let mut told = String::new(alloc);
    push_report(alloc, &mut told, report)?;
    Ok(are_same(told.as_bytes(), told_part(text)))
}

/// Appends what an event came to, each word behind a blank.
fn push_report(alloc: Global, out: &mut String, report: &Report) -> Result<(), OutOfMemory>
    ensures { OnOk result (string_bytes out.new ≡ string_bytes out.old ++ spaced (report_words report.now)) }
{
    match report {
        Report::Reply(reply) => push_reply(alloc, out, reply),
        Report::Agent { call: _, reply } => push_reply(alloc, out, reply),
        Report::Nothing => push_word(out, "nothing"),
        Report::Reading(millis) => push_number(out, *millis),
        Report::Want(taken) => push_want(out, taken),
        Report::Return(taken) => push_return(alloc, out, taken),
        Report::Sent(outputs) => push_count(out, "sent", *outputs),
    }
}
