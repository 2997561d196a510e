//! The lines of events.

ghost use Rattle.std.specs.Prelude.{◌≡◌, ◌++◌, ◌∷◌, [], OnOk, OnErr};
ghost use Rattle.grasp_control.specs.Events.{event_line, event_words};
ghost use Rattle.grasp_service_visits.specs.Parts.{registered_lines};

use crate::answer::Answer;
use grasp_cbor::{Octets, OutOfMemory};
use grasp_control::{NodeEvent, push_event};
use grasp_types::{ApiAnswer, List, Reply};
use std::alloc::Global;

/// Adds the line of an event, at a reading in milliseconds. After an `Err` the lines are as before.
pub fn add_event(
    alloc: Global,
    events: &mut List<Octets>,
    now: u64,
    event: NodeEvent,
) -> Result<(), OutOfMemory>
    ensures line { OnOk result (events.new ≡ events.old ++ event_line now (event_words event) ∷ []) }
    ensures err { OnErr result (events.new ≡ events.old) }
{
    let mut out = String::new(alloc);
    push_event(alloc, &mut out, now, event)?;
    events.push(Octets::of(alloc, out.as_bytes())?)
}

/// Adds that a visitor's agent was registered, where the answer to its line says so.
pub(crate) fn add_registered(
    alloc: Global,
    events: &mut List<Octets>,
    now: u64,
    visitor: u64,
    answer: &Answer,
) -> Result<(), OutOfMemory>
    ensures { OnOk result (events.new ≡ events.old ++ registered_lines now visitor answer.now) }
{
    match answer {
        Answer::Replied(Reply::Api(ApiAnswer::Asa(asa))) => add_event(
            alloc,
            events,
            now,
            NodeEvent::Registered { visitor, asa: *asa },
        ),
        _ => Ok(()),
    }
}
