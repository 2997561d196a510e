//! What events come to, in words.

use grasp_model_network::Report;
use grasp_types::{ApiAnswer, Progress, Reply};

/// The word of a report.
pub fn report_word(report: &Report) -> &'static str {
    match report {
        Report::Reply(reply) => reply_word(reply),
        Report::Agent { call: _, reply } => reply_word(reply),
        Report::Nothing => "nothing",
        Report::Reading(_) => "reading",
        Report::Want(Ok(())) => "wants",
        Report::Want(Err(_)) => "refused",
        Report::Return(Ok(())) => "returns",
        Report::Return(Err(_)) => "refused",
        Report::Sent(0) => "nothing sent",
        Report::Sent(_) => "sent",
    }
}

/// The word of a reply.
fn reply_word(reply: &Reply) -> &'static str {
    match reply {
        Reply::Api(answer) => answer_word(answer),
        Reply::Refused(_) => "refused",
        Reply::Outputs(_) => "outputs",
        Reply::Taken => "taken",
        Reply::Turned => "turned",
        Reply::OutOfMemory => "out of memory",
    }
}

/// The word of an answer.
fn answer_word(answer: &ApiAnswer) -> &'static str {
    match answer {
        ApiAnswer::Done => "done",
        ApiAnswer::Started(_) => "started",
        ApiAnswer::Incoming { .. } => "incoming",
        ApiAnswer::Polled(Progress::NotYet) => "not yet",
        ApiAnswer::Polled(Progress::Turn(_)) => "turn",
        ApiAnswer::Polled(Progress::Ended(_)) => "ended",
        _ => "answered",
    }
}
