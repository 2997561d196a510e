//! What a visitor's line makes of its seat, of the node and of the house.

ghost use Rattle.std.specs.Prelude.{MatchResult, IfOk};
ghost use Rattle.grasp_control.specs.declared.request.Request.TheVariants as request;
ghost use Rattle.grasp_service_visits.specs.Calling.{GoesSome};
ghost use Rattle.grasp_service_visits.specs.Parts.{Serves, Ordered};

use crate::answer::Answer;
use crate::calling::{await_by_gate, call_by_gate};
use crate::house::House;
use crate::orders::{add_want, drop_want};
use grasp_cbor::{Octets, OutOfMemory};
use grasp_config::LogLevel;
use grasp_control::{PlainAnswer, Request};
use grasp_core::NodeCore;
use grasp_crew::Seat;
use grasp_node_main::WantPlan;
use grasp_types::{Locator, Plain};
use std::alloc::Global;

/// Serves a request, at a reading in milliseconds.
#[tactic(auto, using(crate::proofs::Requests::requests_served))]
pub(crate) fn serve(
    alloc: Global,
    core: &mut NodeCore,
    house: &mut House,
    seat: &mut Seat,
    now: u64,
    line: &Octets,
    request: &Request,
) -> Result<Answer, OutOfMemory>
    ensures { MatchResult result (λ a. Serves core.old house.old seat.old now line.now request.now a core.new house.new seat.new)
        (λ _. GoesSome core.old core.new) }
{
    match request {
        Request::Call(call) => call_by_gate(core, seat, now, call),
        Request::Await { millis, call } => await_by_gate(core, seat, now, line, *millis, call),
        Request::State => Ok(Answer::State),
        Request::Wants => Ok(Answer::Wants),
        Request::Reads => Ok(Answer::Reads),
        Request::Events => {
            seat.hear();
            Ok(Answer::Plain(PlainAnswer::Done))
        }
        Request::Counters => Ok(Answer::Counters),
        Request::Version => Ok(Answer::Version),
        Request::Want {
            length,
            longest,
            peer,
        } => order_want(alloc, house, seat.is_guest(), *length, *longest, peer),
        Request::Unwant { number } => Ok(order_unwant(house, seat.is_guest(), *number)),
        Request::Log { level } => Ok(order_level(house, seat.is_guest(), *level)),
        Request::Stop => Ok(order_stop(house, seat.is_guest())),
    }
}

/// Adds a want, where no guest asks for it.
fn order_want(
    alloc: Global,
    house: &mut House,
    guest: bool,
    length: u8,
    longest: u8,
    peer: &Locator,
) -> Result<Answer, OutOfMemory>
    ensures { IfOk result (λ a. Ordered guest house.old (request.Want length longest peer.now) a house.new) }
{
    if guest {
        return Ok(Answer::Plain(PlainAnswer::Denied));
    }
    let peer = peer.copy()?;
    match WantPlan::of(length, longest, peer) {
        Some(want) => add_want(alloc, &mut house.crew, want),
        None => Ok(Answer::Plain(PlainAnswer::Denied)),
    }
}

/// Takes a want back, where no guest asks for it.
fn order_unwant(house: &mut House, guest: bool, number: u64) -> Answer
    ensures { Ordered guest house.old (request.Unwant number) result house.new }
{
    if guest {
        return Answer::Plain(PlainAnswer::Denied);
    }
    drop_want(&mut house.crew, number)
}

/// Sets how much is logged, where no guest asks for it.
fn order_level(house: &mut House, guest: bool, level: LogLevel) -> Answer
    ensures { Ordered guest house.old (request.Log level) result house.new }
{
    if guest {
        return Answer::Plain(PlainAnswer::Denied);
    }
    house.level = level;
    Answer::Plain(PlainAnswer::Done)
}

/// The node is to end, where no guest asks for it.
fn order_stop(house: &mut House, guest: bool) -> Answer
    ensures { Ordered guest house.old request.Stop result house.new }
{
    if guest {
        return Answer::Plain(PlainAnswer::Denied);
    }
    house.stopping = true;
    Answer::Plain(PlainAnswer::Done)
}
