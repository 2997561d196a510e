//! The events of agents.

use grasp_cbor::{Octets, OutOfMemory};
use grasp_control::push_want_event;
use grasp_crew::{Servant, Steward};
use grasp_types::{List, Reply};
use std::alloc::Global;

/// The place of the want that an agent asks for.
#[derive(Clone, Copy)]
pub(crate) struct Asked {
    place: usize,
}

/// The want that an agent asks for.
pub(crate) fn asked_of(servant: &Servant) -> Option<Asked> {
    match servant {
        Servant::Steward(steward) => asked_at(steward),
        _ => None,
    }
}

/// The want that the agent of prefixes asks for.
fn asked_at(steward: &Steward) -> Option<Asked> {
    for place in 0..steward.wants().len() {
        if steward.is_asked(place as u64) {
            return Some(Asked { place });
        }
    }
    None
}

/// Adds that a want ended, where the one that was asked for before isn't any more.
pub(crate) fn add_end(
    alloc: Global,
    events: &mut List<Octets>,
    now: u64,
    steward: &Steward,
    asked: Option<Asked>,
    reply: &Reply,
) -> Result<(), OutOfMemory> {
    let Some(asked) = asked else {
        return Ok(());
    };
    let place = asked.place;
    if steward.is_asked(place as u64) {
        return Ok(());
    }
    let (Some(want), Some(tried)) = (steward.wants().get(place), steward.tries().get(place)) else {
        return Ok(());
    };
    let Some(end) = tried.end else {
        return Ok(());
    };
    let mut out = String::new(alloc);
    push_want_event(
        alloc,
        &mut out,
        now,
        (place as u64).saturating_add(1),
        want.length,
        want.longest,
        end,
        reply,
    )?;
    events.push(Octets::of(alloc, out.as_bytes())?)
}
