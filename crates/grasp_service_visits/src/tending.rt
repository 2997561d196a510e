//! What is done for each seat without a line of its visitor.

ghost use Rattle.std.specs.Prelude.{◌≡◌, ◌++◌, MatchResult, OnOk, Some, if◌then◌else◌};
ghost use Rattle.grasp_crew.specs.Seats.{awaiting, after_goodbye, seat_input};
ghost use Rattle.grasp_shared.specs.Calls.{GoesOn, answered};
ghost use Rattle.grasp_types.specs.declared.call.Call.TheVariants as call;
ghost use Rattle.grasp_service_visits.specs.Calling.{GoesSome};
ghost use Rattle.grasp_service_visits.specs.Tending.{waits_on, resumed_told, TendsAll};
ghost use Rattle.grasp_service_visits.specs.Parts.{Leaves, Tends, Resumes, ResumesWait};

use crate::calling::{is_starved, make_call};
use crate::telling::tell_reply;
use grasp_cbor::OutOfMemory;
use grasp_control::goes_on;
use grasp_core::NodeCore;
use grasp_crew::{Awaiting, Seat};
use grasp_desk::Told;
use grasp_shared::step_core;
use grasp_types::{Call, List, Reply};
use std::alloc::Global;

/// Sees to each seat, in order: the agent of a visitor that left is deregistered, and a call that is awaited is made again.
pub fn tend_all(
    alloc: Global,
    core: &mut NodeCore,
    seats: &mut [Seat],
    out: &mut List<Told>,
    now: u64,
) -> Result<(), OutOfMemory>
    ensures { MatchResult result (λ _. TendsAll core.old seats.old out.old now core.new seats.new out.new) (λ _. GoesSome core.old core.new) }
{
    for i in 0..seats.len() {
        tend(alloc, core, &mut seats[i], out, now)?;
    }
    Ok(())
}

/// Sees to a seat.
#[tactic(auto, using(crate::proofs::TendingAll::left_tended, crate::proofs::TendingAll::resumed_tended))]
fn tend(
    alloc: Global,
    core: &mut NodeCore,
    seat: &mut Seat,
    out: &mut List<Told>,
    now: u64,
) -> Result<(), OutOfMemory>
    ensures { MatchResult result (λ _. Tends core.old seat.old out.old now core.new seat.new out.new) (λ _. GoesSome core.old core.new) }
{
    if seat.is_left() {
        return say_goodbye(core, seat, now);
    }
    resume(alloc, core, seat, out, now)
}

/// Deregisters the agent of a visitor that left, where it has one.
#[tactic(auto, using(crate::proofs::Going::some_step, crate::proofs::TendingAll::left_already, crate::proofs::TendingAll::left_now))]
pub(crate) fn say_goodbye(core: &mut NodeCore, seat: &mut Seat, now: u64) -> Result<(), OutOfMemory>
    ensures { MatchResult result (λ _. Leaves core.old seat.old now core.new seat.new) (λ _. GoesSome core.old core.new) }
{
    if !seat.is_left() {
        return Ok(());
    }
    let reply = deregister(core, seat, now);
    let starved = is_starved(&reply);
    drop(reply);
    if starved { Err(OutOfMemory) } else { Ok(()) }
}

/// The step that deregisters a seat's agent. The seat takes the reply.
fn deregister(core: &mut NodeCore, seat: &mut Seat, now: u64) -> Reply
    ensures went { GoesOn core.old (answered now (seat_input seat.old call.DeregisterAsa) result) core.new }
    ensures seat { seat.new ≡ after_goodbye seat.old result }
{
    let reply = step_core(core, now, seat.input(Call::DeregisterAsa));
    seat.take_goodbye(&reply);
    reply
}

/// Makes the call again that a seat waits for.
#[tactic(auto, using(crate::proofs::TendingAll::resumes_nothing, crate::proofs::TendingAll::resumes_through))]
fn resume(
    alloc: Global,
    core: &mut NodeCore,
    seat: &mut Seat,
    out: &mut List<Told>,
    now: u64,
) -> Result<(), OutOfMemory>
    ensures { MatchResult result (λ _. Resumes core.old seat.old out.old now core.new seat.new out.new) (λ _. GoesSome core.old core.new) }
{
    match seat.end_wait() {
        Some(waiting) => resume_wait(alloc, core, seat, out, now, waiting),
        None => Ok(()),
    }
}

/// Makes a call again for which a seat waited.
fn resume_wait(
    alloc: Global,
    core: &mut NodeCore,
    seat: &mut Seat,
    out: &mut List<Told>,
    now: u64,
    waiting: Awaiting,
) -> Result<(), OutOfMemory>
    ensures { MatchResult result (λ _. ResumesWait core.old seat.old out.old now waiting core.new seat.new out.new) (λ _. GoesSome core.old core.new) }
{
    let visitor = seat.visitor();
    match make_call(core, seat, now, &waiting.call) {
        Ok(reply) => settle(alloc, seat, out, now, visitor, waiting, reply),
        Err(fault) => {
            drop(waiting);
            Err(fault)
        }
    }
}

/// The seat waits on, or its visitor is to be told the reply.
fn settle(
    alloc: Global,
    seat: &mut Seat,
    out: &mut List<Told>,
    now: u64,
    visitor: u64,
    waiting: Awaiting,
    reply: Reply,
) -> Result<(), OutOfMemory>
    ensures seat { OnOk result (seat.new ≡ (if waits_on now waiting reply then awaiting seat.old waiting.line waiting.call waiting.until reply else seat.old)) }
    ensures told { OnOk result (out.new ≡ out.old ++ resumed_told now visitor (Some waiting) reply) }
{
    if waits_on(now, &waiting, &reply) {
        seat.wait_for(waiting.line, waiting.call, waiting.until, reply);
        return Ok(());
    }
    let told = tell_reply(alloc, out, visitor, &waiting.line, &reply);
    drop(waiting);
    drop(reply);
    told
}

/// Whether a call is made once more, later.
fn waits_on(now: u64, waiting: &Awaiting, reply: &Reply) -> bool
    ensures { result ≡ waits_on now waiting.now reply.now }
{
    goes_on(reply) && now < waiting.until
}
