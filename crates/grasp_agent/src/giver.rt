//! What a giver of prefixes decides, also where a prefix is given back to it (RFC 8992, section 4.2).

ghost use Rattle.std.specs.Prelude.{◌≡◌, ◌+◌, ◌≤◌};
ghost use Rattle.grasp_agent.specs.Decisions.{upward, rounded, candidates, first_given, receiver_decision, giver_decision, after_deciding, after_first};

use crate::decision::{GiverDecision, Reason};
use crate::value::{asked_length, returned_prefix};
use grasp_pool::Pool;
use grasp_types::{Prefix, Value};

/// From so many loops on a first offer tries a rounded length first.
const BARGAIN: u8 = 4;

/// So many more bits than were asked for are tried.
const MORE: u8 = 8;

/// Decides on the value and the loop count of the peer's offer, where `first` says that nothing was offered in this
/// session yet. What it offers is reserved. It takes no memory.
#[tactic(auto, unfolding(crate::specs::Decisions::giver_decision))]
pub(crate) fn give(pool: &mut Pool, value: &Option<Value>, loops: u8, first: bool) -> GiverDecision
    ensures decides { result ≡ giver_decision pool.old value.now loops first }
    ensures after { pool.new ≡ after_deciding pool.old result }
{
    if let Some(prefix) = returned_prefix(value) {
        return receive(pool, prefix);
    }
    let Some(length) = asked_length(value) else {
        return GiverDecision::Decline(Reason::BadValue);
    };
    if loops <= 1 {
        return GiverDecision::Decline(Reason::NoLoops);
    }
    match take_first(pool, length, loops, first) {
        Some(prefix) => GiverDecision::Offer(prefix),
        None => GiverDecision::Decline(Reason::NoPrefix),
    }
}

/// Decides on a prefix that is given back.
fn receive(pool: &Pool, prefix: Prefix) -> GiverDecision
    ensures { result ≡ receiver_decision pool.now prefix }
{
    if pool.can_gain(prefix) {
        GiverDecision::Accept(prefix)
    } else {
        GiverDecision::Decline(Reason::NotTaken)
    }
}

/// Reserves the first candidate that is free.
#[tactic(auto, using(crate::proofs::Deciding::first_of_both))]
fn take_first(pool: &mut Pool, length: u8, loops: u8, first: bool) -> Option<Prefix>
    requires least { 1 ≤ length }
    requires most { length ≤ 128 }
    ensures reply { result ≡ first_given pool.old (candidates length loops first) }
    ensures after { pool.new ≡ after_first pool.old result }
{
    if let Some(prefix) = take_rounded(pool, length, loops, first) {
        return Some(prefix);
    }
    let tries = MORE.min(128 - length) + 1;
    take_upward(pool, tries, length)
}

/// Reserves a prefix of the rounded length, where that is tried and one is free.
#[tactic(auto, using(crate::proofs::Deciding::first_of_one))]
fn take_rounded(pool: &mut Pool, length: u8, loops: u8, first: bool) -> Option<Prefix>
    requires least { 1 ≤ length }
    requires most { length ≤ 128 }
    ensures reply { result ≡ first_given pool.old (rounded length loops first) }
    ensures after { pool.new ≡ after_first pool.old result }
{
    let rounded = length - length % 4;
    if first && loops >= BARGAIN && rounded > 0 {
        pool.take(rounded)
    } else {
        None
    }
}

/// Reserves the first that is free of so many lengths from this one on.
#[tactic(auto, using(crate::proofs::Deciding::first_upward, crate::proofs::Deciding::none_upward))]
fn take_upward(pool: &mut Pool, tries: u8, length: u8) -> Option<Prefix>
    requires least { 1 ≤ length }
    requires most { length + tries ≤ 129 }
    ensures reply { result ≡ first_given pool.old (upward tries length) }
    ensures after { pool.new ≡ after_first pool.old result }
{
    if tries == 0 {
        return None;
    }
    match pool.take(length) {
        Some(prefix) => Some(prefix),
        None => take_upward(pool, tries - 1, length + 1),
    }
}
