//! What comes of visitors: they come, write lines and leave.

ghost use Rattle.std.specs.Prelude.{◌≡◌, ◌<◌, ◌++◌, ◌∷◌, [], length, IfSome, OnOk, MatchResult};
ghost use Rattle.grasp_crew.specs.Seats.{new_seat, leaving};
ghost use Rattle.grasp_service_visits.specs.Calling.{GoesSome};
ghost use Rattle.grasp_service_visits.specs.Visits.{place_of};
ghost use Rattle.grasp_service_visits.specs.Parts.{Leaves, HearsAt, LeavesAt, Visits};

use crate::asking::hear;
use crate::events::add_event;
use crate::house::House;
use crate::tending::say_goodbye;
use grasp_cbor::{Octets, OutOfMemory};
use grasp_control::NodeEvent;
use grasp_core::NodeCore;
use grasp_crew::Seat;
use grasp_desk::{Told, Visiting};
use grasp_types::List;
use std::alloc::Global;

/// The place of a visitor's seat.
#[tactic(auto, using(crate::proofs::Hearing::place_within))]
fn place_of(seats: &[Seat], visitor: u64) -> Option<usize>
    ensures place { result ≡ place_of visitor seats.now }
    ensures within { IfSome result (λ i. i < length seats.now) }
{
    seats.iter().position(|s| s.is_of(visitor))
}

/// Takes what came of a visitor, at a reading in milliseconds.
#[tactic(auto, using(crate::proofs::Hearing::coming))]
pub(crate) fn visit(
    alloc: Global,
    core: &mut NodeCore,
    house: &mut House,
    seats: &mut Vec<Seat>,
    out: &mut List<Told>,
    events: &mut List<Octets>,
    now: u64,
    visiting: &Visiting,
) -> Result<(), OutOfMemory>
    ensures { MatchResult result
        (λ _. Visits core.old house.old seats.old.items out.old now visiting.now core.new house.new seats.new.items out.new)
        (λ _. GoesSome core.old core.new) }
{
    match visiting {
        Visiting::Came { visitor, guest } => come(alloc, seats, events, now, *visitor, *guest),
        Visiting::Line { visitor, line } => {
            hear_at(alloc, core, house, seats, out, events, now, *visitor, line)
        }
        Visiting::Left { visitor } => leave(alloc, core, seats, events, now, *visitor),
        Visiting::Nothing => Ok(()),
        Visiting::OutOfMemory => Ok(()),
    }
}

/// A visitor came, and has a seat from now on.
fn come(
    alloc: Global,
    seats: &mut Vec<Seat>,
    events: &mut List<Octets>,
    now: u64,
    visitor: u64,
    guest: bool,
) -> Result<(), OutOfMemory>
    ensures { OnOk result (seats.new.items ≡ seats.old.items ++ new_seat visitor guest ∷ []) }
{
    seats.push(Seat::new(alloc, visitor, guest))?;
    add_event(alloc, events, now, NodeEvent::Came { visitor })
}

/// Takes a visitor's line at its seat, where it has one.
#[tactic(auto, using(crate::proofs::Hearing::there_through, crate::proofs::Hearing::hears_nowhere))]
fn hear_at(
    alloc: Global,
    core: &mut NodeCore,
    house: &mut House,
    seats: &mut [Seat],
    out: &mut List<Told>,
    events: &mut List<Octets>,
    now: u64,
    visitor: u64,
    line: &Octets,
) -> Result<(), OutOfMemory>
    ensures { MatchResult result
        (λ _. HearsAt (place_of visitor seats.old) core.old house.old seats.old out.old now visitor line.now core.new house.new seats.new out.new)
        (λ _. GoesSome core.old core.new) }
{
    match place_of(seats, visitor) {
        Some(place) => hear(
            alloc,
            core,
            house,
            &mut seats[place],
            out,
            events,
            now,
            line,
        ),
        None => Ok(()),
    }
}

/// A visitor left.
#[tactic(auto, using(crate::proofs::Hearing::left_some))]
fn leave(
    alloc: Global,
    core: &mut NodeCore,
    seats: &mut [Seat],
    events: &mut List<Octets>,
    now: u64,
    visitor: u64,
) -> Result<(), OutOfMemory>
    ensures { MatchResult result
        (λ _. LeavesAt (place_of visitor seats.old) core.old seats.old now core.new seats.new)
        (λ _. GoesSome core.old core.new) }
{
    leave_at(core, seats, now, visitor)?;
    add_event(alloc, events, now, NodeEvent::Left { visitor })
}

/// A visitor left its seat, where it has one.
#[tactic(auto, using(crate::proofs::Hearing::left_through, crate::proofs::Hearing::leaves_nowhere))]
fn leave_at(
    core: &mut NodeCore,
    seats: &mut [Seat],
    now: u64,
    visitor: u64,
) -> Result<(), OutOfMemory>
    ensures { MatchResult result
        (λ _. LeavesAt (place_of visitor seats.old) core.old seats.old now core.new seats.new)
        (λ _. GoesSome core.old core.new) }
{
    match place_of(seats, visitor) {
        Some(place) => leave_seat(core, &mut seats[place], now),
        None => Ok(()),
    }
}

/// A visitor left this seat.
#[tactic(auto, using(crate::proofs::Hearing::seat_through))]
fn leave_seat(core: &mut NodeCore, seat: &mut Seat, now: u64) -> Result<(), OutOfMemory>
    ensures { MatchResult result (λ _. Leaves core.old (leaving seat.old) now core.new seat.new) (λ _. GoesSome core.old core.new) }
{
    seat.leave();
    say_goodbye(core, seat, now)
}
