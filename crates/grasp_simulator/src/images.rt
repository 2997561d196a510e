//! Whether an agent may be opened anew by an image of a pool.

ghost use Rattle.std.specs.Prelude.{◌≡◌, ◌<◌, ◌≤◌, ◌↔◌, Contains, IsTrue, length, slice_index_or, Some};
ghost use Rattle.grasp_agent.specs.Reopening.{MayReopen};
ghost use Rattle.grasp_pool.specs.Canonical.{lower, upper};
ghost use Rattle.grasp_pool.specs.Listings.{AreDisjoint, ApartBelow, all_of};
ghost use Rattle.grasp_pool.specs.Spans.{IsValid, size};
ghost use Rattle.grasp_types.specs.Prefix.{IsPrefix};
ghost use Rattle.grasp_simulator.specs.Images.{AreToBeHad, HasAllLeft, IsAmong, IsIn, IsToBeHad};

use crate::notes::is_left;
use grasp_agent::PrefixAgent;
use grasp_pool::{PoolImage, overlaps};
use grasp_types::Prefix;

/// A pool has at most so many prefixes.
const MOST_PREFIXES: usize = 4096;

/// The two halves of a prefix.
#[derive(Clone, Copy)]
struct Halves {
    lower: Prefix,
    upper: Prefix,
}

/// Whether the agent may be opened anew by this image: a pool can have its prefixes, each address of its free ones is free at
/// the agent or in a prefix that it was to offer, and its doubtful ones have all that the agent has offered or in doubt. It takes
/// no memory.
pub(crate) fn may_reopen(agent: &PrefixAgent, image: &PoolImage) -> bool
    ensures { IsTrue result ↔ MayReopen agent.now image.now }
{
    let free = image.free.slice();
    let doubtful = image.doubtful.slice();
    if free.len() > MOST_PREFIXES || doubtful.len() > MOST_PREFIXES - free.len() {
        return false;
    }
    if !are_apart(image, free.len() + doubtful.len()) {
        return false;
    }
    if !are_had(agent, free) {
        return false;
    }
    has_all_left(agent, doubtful)
}

/// The prefix at this place of a list.
fn prefix_in(prefixes: &[Prefix], i: usize) -> Prefix
    requires { i < length prefixes.now }
    ensures is { result ≡ slice_index_or prefixes.now i result }
    ensures valid { IsValid result }
{
    let prefix = prefixes[i];
    // What is read of a prefix tells that it is one.
    let _address = prefix.address();
    prefix
}

/// The prefix of an image at this place: the free ones come first, and then the doubtful ones.
fn image_at(image: &PoolImage, i: usize) -> Prefix
    requires { i < length (all_of image.now) }
    ensures is { result ≡ slice_index_or (all_of image.now) i result }
    ensures valid { IsValid result }
{
    let free = image.free.slice();
    if i < free.len() {
        prefix_in(free, i)
    } else {
        prefix_in(image.doubtful.slice(), i - free.len())
    }
}

/// Whether the prefix overlaps none of the first `count` of an image.
fn is_apart(image: &PoolImage, prefix: Prefix, count: usize) -> bool
    requires { count ≤ length (all_of image.now) }
    ensures { IsTrue result ↔ ApartBelow (all_of image.now) prefix count }
{
    for i in 0..count {
        if overlaps(image_at(image, i), prefix) {
            return false;
        }
    }
    true
}

/// Whether no two prefixes of an image overlap. `count` is how many there are.
fn are_apart(image: &PoolImage, count: usize) -> bool
    requires { count ≡ length (all_of image.now) }
    ensures { IsTrue result ↔ AreDisjoint (all_of image.now) }
{
    for i in 0..count {
        if !is_apart(image, image_at(image, i), i) {
            return false;
        }
    }
    true
}

/// Whether each address of these is free at the agent, or in a prefix that it was to offer.
fn are_had(agent: &PrefixAgent, prefixes: &[Prefix]) -> bool
    ensures { IsTrue result ↔ AreToBeHad agent.now prefixes.now }
{
    for prefix in prefixes {
        if !is_had(agent, *prefix) {
            return false;
        }
    }
    true
}

/// Whether each address of the prefix is free at the agent, or in a prefix that it was to offer: all are of one kind, or those
/// of each half are so.
fn is_had(agent: &PrefixAgent, prefix: Prefix) -> bool
    ensures { IsTrue result ↔ IsToBeHad agent.now prefix }
{
    if is_wholly_had(agent, prefix) {
        return true;
    }
    if prefix.length() == 128 {
        return false;
    }
    let halves = halves_of(prefix);
    if !is_had(agent, halves.lower) {
        return false;
    }
    is_had(agent, halves.upper)
}

/// Whether the prefix is all free at the agent, or lies in one that it was to offer.
fn is_wholly_had(agent: &PrefixAgent, prefix: Prefix) -> bool
    ensures had { IsTrue result → IsToBeHad agent.now prefix }
    ensures one { prefix.length ≡ 128 → IsToBeHad agent.now prefix → IsTrue result }
    ensures valid { IsValid prefix }
{
    // What is read of a prefix tells that it is one.
    let _address = prefix.address();
    if agent.pool().is_free(prefix) {
        return true;
    }
    if is_in(agent.offering(), prefix) {
        return true;
    }
    is_in(agent.unsent(), prefix)
}

/// Whether there is a prefix, and this one lies in it.
fn is_in(whole: Option<Prefix>, prefix: Prefix) -> bool
    ensures { IsTrue result ↔ IsIn whole prefix }
{
    match whole {
        Some(whole) => is_part(whole, prefix),
        None => false,
    }
}

/// Whether the second prefix lies in the first.
fn is_part(whole: Prefix, prefix: Prefix) -> bool
    ensures { IsTrue result ↔ IsIn (Some whole) prefix }
{
    if prefix.length() < whole.length() {
        return false;
    }
    overlaps(whole, prefix)
}

/// The two halves of a prefix.
fn halves_of(whole: Prefix) -> Halves
    requires valid { IsValid whole }
    requires short { whole.length < 128 }
    ensures lower { result.lower ≡ lower whole }
    ensures upper { result.upper ≡ upper whole }
{
    let length = whole.length() + 1;
    let address = whole.address();
    let lower = prefix_at(address, length);
    let half = size_of(lower);
    let upper = prefix_at(address + half, length);
    Halves { lower, upper }
}

/// The prefix of this address and length, which are known to make one.
fn prefix_at(address: u128, length: u8) -> Prefix
    requires { IsPrefix address length }
    ensures { result ≡ record { address = address; length = length } }
{
    let Some(prefix) = Prefix::of(address, length) else {
        unreachable!()
    };
    prefix
}

/// How many addresses it has.
fn size_of(prefix: Prefix) -> u128
    ensures value { result ≡ size prefix }
    ensures valid { IsValid prefix }
{
    1u128 << (128 - prefix.length())
}

/// Whether these have each prefix that the agent has offered or in doubt.
fn has_all_left(agent: &PrefixAgent, prefixes: &[Prefix]) -> bool
    ensures { IsTrue result ↔ HasAllLeft agent.now prefixes.now }
{
    let pool = agent.pool();
    for i in 0..MOST_PREFIXES as u64 {
        if !is_among(agent, prefixes, pool.reserved(i)) {
            return false;
        }
        if !is_among(agent, prefixes, pool.doubtful(i)) {
            return false;
        }
    }
    true
}

/// Whether these have the prefix, where there is one and the agent has offered it or in doubt.
fn is_among(agent: &PrefixAgent, prefixes: &[Prefix], prefix: Option<Prefix>) -> bool
    ensures { IsTrue result ↔ IsAmong agent.now prefixes.now prefix }
{
    let Some(prefix) = prefix else {
        return true;
    };
    if !is_left(agent, prefix) {
        return true;
    }
    has(prefixes, prefix)
}

/// Whether the prefix is one of these.
fn has(prefixes: &[Prefix], prefix: Prefix) -> bool
    ensures { IsTrue result ↔ Contains prefixes.now prefix }
{
    for other in prefixes {
        if *other == prefix {
            return true;
        }
    }
    false
}
