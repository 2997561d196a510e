//! A visitor's line, from what it says to its answer.

ghost use Rattle.std.specs.Prelude.{◌≡◌, ◌++◌, MatchResult, OnOk};
ghost use Rattle.grasp_control.specs.declared.answers.PlainAnswer.TheVariants as plain;
ghost use Rattle.grasp_service_visits.specs.Calling.{GoesSome};
ghost use Rattle.grasp_service_visits.specs.Parts.{registered_lines, TellsAnswer, Heard, Understood, Obeys};
ghost use Rattle.grasp_service_visits.specs.declared.answer.Answer.TheVariants.{Plain};

use crate::answer::Answer;
use crate::events::add_registered;
use crate::house::House;
use crate::serving::serve;
use crate::telling::{add_answer, end_wait};
use grasp_cbor::{Octets, OutOfMemory};
use grasp_control::{PlainAnswer, Request, RequestFault, read_request};
use grasp_core::NodeCore;
use grasp_crew::Seat;
use grasp_desk::Told;
use grasp_types::List;
use std::alloc::Global;

/// Takes a visitor's line, at a reading in milliseconds. What it waits for ends first.
#[tactic(auto, using(crate::proofs::Going::some_none, crate::proofs::Hearing::heard_through))]
pub(crate) fn hear(
    alloc: Global,
    core: &mut NodeCore,
    house: &mut House,
    seat: &mut Seat,
    out: &mut List<Told>,
    events: &mut List<Octets>,
    now: u64,
    line: &Octets,
) -> Result<(), OutOfMemory>
    ensures { MatchResult result (λ _. Heard core.old house.old seat.old out.old now line.now core.new house.new seat.new out.new)
        (λ _. GoesSome core.old core.new) }
{
    end_wait(alloc, seat, out)?;
    understand(alloc, core, house, seat, out, events, now, line)
}

/// Takes the line of a visitor that waits for nothing.
#[tactic(auto, using(crate::proofs::Going::some_none))]
fn understand(
    alloc: Global,
    core: &mut NodeCore,
    house: &mut House,
    seat: &mut Seat,
    out: &mut List<Told>,
    events: &mut List<Octets>,
    now: u64,
    line: &Octets,
) -> Result<(), OutOfMemory>
    ensures { MatchResult result (λ _. Understood core.old house.old seat.old out.old now line.now core.new house.new seat.new out.new)
        (λ _. GoesSome core.old core.new) }
{
    match read_request(alloc, line.bytes()) {
        Ok(request) => {
            let obeyed = obey(alloc, core, house, seat, out, events, now, line, &request);
            drop(request);
            obeyed
        }
        Err(RequestFault::BadLine { at }) => {
            tell_bad(alloc, house, out, now, seat.visitor(), line, at)
        }
        Err(RequestFault::OutOfMemory) => Err(OutOfMemory),
    }
}

/// Serves a request, and adds its answer to what is to be told.
fn obey(
    alloc: Global,
    core: &mut NodeCore,
    house: &mut House,
    seat: &mut Seat,
    out: &mut List<Told>,
    events: &mut List<Octets>,
    now: u64,
    line: &Octets,
    request: &Request,
) -> Result<(), OutOfMemory>
    ensures { MatchResult result (λ _. Obeys core.old house.old seat.old out.old now line.now request.now core.new house.new seat.new out.new)
        (λ _. GoesSome core.old core.new) }
{
    let visitor = seat.visitor();
    let answer = serve(alloc, core, house, seat, now, line, request)?;
    let told = tell_answer(alloc, house, out, events, now, visitor, line, &answer);
    drop(answer);
    told
}

/// Adds the line of an answer to what is to be told, and the line of its event, where it has one.
fn tell_answer(
    alloc: Global,
    house: &House,
    out: &mut List<Told>,
    events: &mut List<Octets>,
    now: u64,
    visitor: u64,
    line: &Octets,
    answer: &Answer,
) -> Result<(), OutOfMemory>
    ensures told { OnOk result (TellsAnswer house.now.crew.items visitor line.now answer.now out.old out.new) }
    ensures noted { OnOk result (events.new ≡ events.old ++ registered_lines now visitor answer.now) }
{
    add_registered(alloc, events, now, visitor, answer)?;
    add_answer(alloc, house, out, now, visitor, line, answer)
}

/// Adds the line by which a line is answered that is no request from this place on.
fn tell_bad(
    alloc: Global,
    house: &House,
    out: &mut List<Told>,
    now: u64,
    visitor: u64,
    line: &Octets,
    at: u64,
) -> Result<(), OutOfMemory>
    ensures { OnOk result (TellsAnswer house.now.crew.items visitor line.now (Plain (plain.BadLine at)) out.old out.new) }
{
    let answer = Answer::Plain(PlainAnswer::BadLine { at });
    let told = add_answer(alloc, house, out, now, visitor, line, &answer);
    drop(answer);
    told
}
