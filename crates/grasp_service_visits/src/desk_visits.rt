//! What comes of visitors, from the desk.

ghost use Rattle.std.specs.Prelude.{◌≡◌, MatchResult};
ghost use Rattle.grasp_service_visits.specs.Calling.{GoesSome};
ghost use Rattle.grasp_service_visits.specs.Desks.{desk_told, is_visit};
ghost use Rattle.grasp_service_visits.specs.Visits.{TakesOnce, TakesVisits};
ghost use Rattle.grasp_service_visits.specs.Parts.{TakesIn};

use crate::house::House;
use crate::visit::visit;
use grasp_cbor::{Octets, OutOfMemory};
use grasp_core::NodeCore;
use grasp_crew::Seat;
use grasp_desk::{Desk, Told, Visiting};
use grasp_types::List;
use std::alloc::Global;

/// So often the desk is asked at most.
const MOST_ASKS: u32 = 16;

/// Takes what came of visitors, at a reading in milliseconds: at most 16 times, until nothing comes. What they are to be told is
/// added to the lines. Where memory is wanted, nothing but the node's history is claimed.
pub fn take_visits<D: Desk>(
    alloc: Global,
    core: &mut NodeCore,
    house: &mut House,
    seats: &mut Vec<Seat>,
    out: &mut List<Told>,
    events: &mut List<Octets>,
    desk: &mut D,
    now: u64,
) -> Result<bool, OutOfMemory>
    ensures { MatchResult result
        (λ some. TakesVisits core.old house.old seats.old.items out.old (desk_told D.Desk desk.old) now some core.new house.new seats.new.items out.new
        (desk_told D.Desk desk.new))
        (λ _. GoesSome core.old core.new) }
{
    let mut some = false;
    for _ask in 0..MOST_ASKS {
        let came = take_visit(alloc, core, house, seats, out, events, desk, now)?;
        if !came {
            return Ok(some);
        }
        some = true;
    }
    Ok(some)
}

/// Asks the desk once, and takes what came. Whether something did.
fn take_visit<D: Desk>(
    alloc: Global,
    core: &mut NodeCore,
    house: &mut House,
    seats: &mut Vec<Seat>,
    out: &mut List<Told>,
    events: &mut List<Octets>,
    desk: &mut D,
    now: u64,
) -> Result<bool, OutOfMemory>
    ensures { MatchResult result
        (λ some. TakesOnce core.old house.old seats.old.items out.old (desk_told D.Desk desk.old) now some core.new house.new seats.new.items out.new
        (desk_told D.Desk desk.new))
        (λ _. GoesSome core.old core.new) }
{
    let visiting = desk.visiting();
    let taken = take_in(alloc, core, house, seats, out, events, now, &visiting);
    drop(visiting);
    taken
}

/// Takes what came, where something did. Whether it did.
#[tactic(auto, using(crate::proofs::Visiting::takes_still))]
fn take_in(
    alloc: Global,
    core: &mut NodeCore,
    house: &mut House,
    seats: &mut Vec<Seat>,
    out: &mut List<Told>,
    events: &mut List<Octets>,
    now: u64,
    visiting: &Visiting,
) -> Result<bool, OutOfMemory>
    ensures { MatchResult result
        (λ some. TakesIn core.old house.old seats.old.items out.old now visiting.now some core.new house.new seats.new.items out.new)
        (λ _. GoesSome core.old core.new) }
{
    if !is_visit(visiting) {
        return Ok(false);
    }
    visit(alloc, core, house, seats, out, events, now, visiting)?;
    Ok(true)
}

/// Whether something came.
fn is_visit(visiting: &Visiting) -> bool
    ensures { result ≡ is_visit visiting.now }
{
    match visiting {
        Visiting::Came { .. } => true,
        Visiting::Line { .. } => true,
        Visiting::Left { .. } => true,
        Visiting::Nothing => false,
        Visiting::OutOfMemory => false,
    }
}
