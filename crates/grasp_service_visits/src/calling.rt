//! The calls of visitors' agents.

ghost use Rattle.std.specs.Prelude.{◌≡◌, false, MatchResult, IfOk, OnOk};
ghost use Rattle.grasp_crew.specs.Seats.{awaiting, seat_after, seat_input};
ghost use Rattle.grasp_shared.specs.Calls.{GoesOn, answered};
ghost use Rattle.grasp_service_visits.specs.Calling.{is_starved, GoesSome};
ghost use Rattle.grasp_service_visits.specs.Parts.{Calls, WaitsOrTells, Awaits, GoesByGate, AwaitsByGate};
ghost use Rattle.grasp_service_visits.specs.declared.answer.Answer.TheVariants.{Later};

use crate::answer::Answer;
use grasp_cbor::{Octets, OutOfMemory};
use grasp_control::{PlainAnswer, goes_on};
use grasp_core::NodeCore;
use grasp_crew::{Gate, Seat, note_of};
use grasp_shared::step_core;
use grasp_types::{ApiRefused, Call, Plain, Reply};

/// Whether the node had no memory for a call.
pub fn is_starved(reply: &Reply) -> bool
    ensures { result ≡ is_starved reply.now }
{
    matches!(reply, Reply::OutOfMemory)
}

/// The step of a call of a seat's agent. Where there is no memory for the call, no step is made.
fn step_seat(core: &mut NodeCore, seat: &Seat, now: u64, call: &Call) -> Result<Reply, OutOfMemory>
    ensures { MatchResult result (λ reply. GoesOn core.old (answered now (seat_input seat.now call.now) reply) core.new) (λ _. core.new ≡ core.old) }
{
    let call = call.copy()?;
    Ok(step_core(core, now, seat.input(call)))
}

/// The seat takes the reply to a call. After an `Err` nothing is claimed of it.
fn take_reply(seat: &mut Seat, call: &Call, reply: &Reply) -> Result<(), OutOfMemory>
    ensures heard { OnOk result (is_starved reply.now ≡ false) }
    ensures seat { OnOk result (seat.new ≡ seat_after seat.old call.now reply.now) }
{
    if is_starved(reply) {
        return Err(OutOfMemory);
    }
    seat.take(note_of(call), reply)
}

/// One call of a visitor's agent, at a reading in milliseconds. Where the node wanted memory for it, that is answered, and nothing
/// is claimed of the seat.
#[tactic(auto, using(crate::proofs::Going::some_same, crate::proofs::Going::some_step))]
pub(crate) fn make_call(
    core: &mut NodeCore,
    seat: &mut Seat,
    now: u64,
    call: &Call,
) -> Result<Reply, OutOfMemory>
    ensures { MatchResult result (λ reply. Calls core.old seat.old now call.now reply core.new seat.new) (λ _. GoesSome core.old core.new) }
{
    let reply = step_seat(core, seat, now, call)?;
    match take_reply(seat, call, &reply) {
        Ok(()) => Ok(reply),
        Err(fault) => {
            drop(reply);
            Err(fault)
        }
    }
}

/// The same where the seat's gate lets the call pass.
#[tactic(auto, using(crate::proofs::Going::some_none, crate::proofs::Requests::by_gate))]
pub(crate) fn call_by_gate(
    core: &mut NodeCore,
    seat: &mut Seat,
    now: u64,
    call: &Call,
) -> Result<Answer, OutOfMemory>
    ensures { MatchResult result (λ a. GoesByGate core.old seat.old now call.now a core.new seat.new) (λ _. GoesSome core.old core.new) }
{
    match seat.gate(call) {
        Gate::Passes => Ok(Answer::Replied(make_call(core, seat, now, call)?)),
        Gate::Seatless => Ok(Answer::Replied(Reply::Refused(ApiRefused::NoAsa))),
        Gate::Seated => Ok(Answer::Plain(PlainAnswer::Seated)),
    }
}

/// The same, but where the reply tells nothing yet the seat waits, for at most so many milliseconds.
#[tactic(auto, using(crate::proofs::Going::some_none, crate::proofs::Requests::awaits_by_gate))]
pub(crate) fn await_by_gate(
    core: &mut NodeCore,
    seat: &mut Seat,
    now: u64,
    line: &Octets,
    millis: u32,
    call: &Call,
) -> Result<Answer, OutOfMemory>
    ensures { MatchResult result (λ a. AwaitsByGate core.old seat.old now line.now millis call.now a core.new seat.new)
        (λ _. GoesSome core.old core.new) }
{
    match seat.gate(call) {
        Gate::Passes => await_call(core, seat, now, line, millis, call),
        Gate::Seatless => Ok(Answer::Replied(Reply::Refused(ApiRefused::NoAsa))),
        Gate::Seated => Ok(Answer::Plain(PlainAnswer::Seated)),
    }
}

/// A call that is awaited.
fn await_call(
    core: &mut NodeCore,
    seat: &mut Seat,
    now: u64,
    line: &Octets,
    millis: u32,
    call: &Call,
) -> Result<Answer, OutOfMemory>
    ensures { MatchResult result (λ a. Awaits core.old seat.old now line.now millis call.now a core.new seat.new)
        (λ _. GoesSome core.old core.new) }
{
    let reply = make_call(core, seat, now, call)?;
    let until = now.saturating_add(u64::from(millis));
    wait_or_tell(seat, line, call, until, reply)
}

/// The seat waits from this reply on, where it tells nothing yet. Else it is the answer.
fn wait_or_tell(
    seat: &mut Seat,
    line: &Octets,
    call: &Call,
    until: u64,
    reply: Reply,
) -> Result<Answer, OutOfMemory>
    ensures { IfOk result (λ a. WaitsOrTells seat.old line.now call.now until reply a seat.new) }
{
    if goes_on(&reply) {
        return begin_wait(seat, line, call, until, reply);
    }
    Ok(Answer::Replied(reply))
}

/// The seat waits from this reply on.
fn begin_wait(
    seat: &mut Seat,
    line: &Octets,
    call: &Call,
    until: u64,
    reply: Reply,
) -> Result<Answer, OutOfMemory>
    ensures answer { IfOk result (λ a. a ≡ Later) }
    ensures seat { OnOk result (seat.new ≡ awaiting seat.old line.now call.now until reply) }
{
    match copies(line, call) {
        Ok((line, call)) => {
            seat.wait_for(line, call, until, reply);
            Ok(Answer::Later)
        }
        Err(fault) => {
            drop(reply);
            Err(fault)
        }
    }
}

/// Another of the same line, and another of the same call.
fn copies(line: &Octets, call: &Call) -> Result<(Octets, Call), OutOfMemory>
    ensures line { IfOk result (λ both. both.0 ≡ line.now) }
    ensures call { IfOk result (λ both. both.1 ≡ call.now) }
{
    let line = line.copy()?;
    let call = call.copy()?;
    Ok((line, call))
}
