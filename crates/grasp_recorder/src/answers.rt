//! What a node answers at an event, and events behind which nothing is sent.

ghost use Rattle.std.specs.Prelude.{◌≡◌};
ghost use Rattle.grasp_laws_delivery.specs.Undrained.{undrained};
ghost use Rattle.grasp_model_audit.specs.Recording.{answer_by};
ghost use Rattle.grasp_model_network.specs.Events.{drains};
ghost use Rattle.grasp_recorder.specs.Taking.{answer_in};

use grasp_model_network::{Event, Report};
use grasp_record::RecordAnswer;
use grasp_types::{ApiRefused, Reply};

/// What a node answered, by what is reported of the event, or `None` where nothing came of it.
pub(crate) fn answer_in(report: Report) -> Option<RecordAnswer>
    ensures { result ≡ answer_in report }
{
    match report {
        Report::Reply(reply) => Some(answer_by(reply)),
        Report::Agent { call: _, reply } => Some(answer_by(reply)),
        Report::Want(taken) => Some(RecordAnswer::Want(taken)),
        Report::Return(taken) => Some(RecordAnswer::Return(taken)),
        Report::Nothing => None,
        Report::Reading(_) => None,
        Report::Sent(_) => None,
    }
}

/// What a node answered, by its reply.
fn answer_by(reply: Reply) -> RecordAnswer
    ensures { result ≡ answer_by reply }
{
    match reply {
        Reply::Api(answer) => RecordAnswer::Api(answer),
        Reply::Refused(refused) => RecordAnswer::Refused(refused),
        Reply::Outputs(outputs) => RecordAnswer::Outputs(outputs),
        Reply::Taken => RecordAnswer::Taken,
        Reply::Turned => RecordAnswer::Turned,
        Reply::OutOfMemory => RecordAnswer::Refused(ApiRefused::OutOfMemory),
    }
}

/// Whether outputs of the node are sent behind the event.
pub(crate) fn is_drained(event: &Event) -> bool
    ensures { result ≡ drains event.now }
{
    match event {
        Event::Agent { node: _, hold } => !*hold,
        Event::Api { hold, .. } => !*hold,
        Event::Datagram { index: _, hold } => !*hold,
        Event::Arrive { stream: _, hold } => !*hold,
        Event::Bytes { hold, .. } => !*hold,
        Event::Cut { hold, .. } => !*hold,
        _ => false,
    }
}

/// The event, with nothing sent behind it.
pub(crate) fn undrained(event: Event) -> Event
    ensures { result ≡ undrained event }
{
    match event {
        Event::Agent { node, hold: _ } => Event::Agent { node, hold: true },
        Event::Api {
            node,
            asa,
            call,
            hold: _,
        } => Event::Api {
            node,
            asa,
            call,
            hold: true,
        },
        Event::Datagram { index, hold: _ } => Event::Datagram { index, hold: true },
        Event::Arrive { stream, hold: _ } => Event::Arrive { stream, hold: true },
        Event::Bytes {
            stream,
            far,
            count,
            hold: _,
        } => Event::Bytes {
            stream,
            far,
            count,
            hold: true,
        },
        Event::Cut {
            stream,
            far,
            hold: _,
        } => Event::Cut {
            stream,
            far,
            hold: true,
        },
        other => other,
    }
}
