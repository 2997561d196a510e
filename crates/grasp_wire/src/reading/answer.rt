//! What a response tells (RFC 8990, section 2.8.5).

ghost use Rattle.std.specs.Prelude.{◌≡◌, ◌≤◌, ◌<◌, ◌^◌, length, IfOk};
ghost use Rattle.grasp_cbor.specs.Item.{items_of};
ghost use Rattle.grasp_wire.specs.Reading.{at_place};
ghost use Rattle.grasp_wire.specs.ReadParts.{divert_in, divert_answer, locators_answer, answer_between, answer_end};

use crate::reading::locator::locators_between;
use crate::reading::scalars::{has_text_first_at, kind_at, parts_at};
use grasp_cbor::{Items, OutOfMemory};
use grasp_types::{Answer, Locators};
use std::alloc::Global;

/// Where the answer ends: before an objective, where one is last.
#[tactic(auto, unfolding(crate::specs::ReadParts::answer_end))]
pub(crate) fn answer_end(parts: &Items) -> u64
    ensures value { result ≡ answer_end (items_of parts.now) }
    ensures within { result ≤ length (items_of parts.now) }
{
    let last = parts.len().saturating_sub(1);
    if has_text_first_at(parts, last) {
        last
    } else {
        parts.len()
    }
}

/// The locators that the divert at this place holds.
#[tactic(auto, unfolding(crate::specs::ReadParts::divert_in))]
fn divert_at(alloc: Global, parts: &Items, place: u64) -> Result<Option<Locators>, OutOfMemory>
    ensures { IfOk result (λ r. r ≡ at_place divert_in (items_of parts.now) place) }
{
    match parts_at(parts, place) {
        Some(inner) => locators_between(alloc, inner, 1, inner.len()),
        None => Ok(None),
    }
}

#[tactic(auto, unfolding(crate::specs::ReadParts::divert_answer))]
fn divert_answer(alloc: Global, parts: &Items, place: u64) -> Result<Option<Answer>, OutOfMemory>
    ensures { IfOk result (λ r. r ≡ divert_answer (items_of parts.now) place) }
{
    match divert_at(alloc, parts, place)? {
        Some(locators) => Ok(Some(Answer::Divert(locators))),
        None => Ok(None),
    }
}

#[tactic(auto, unfolding(crate::specs::ReadParts::locators_answer))]
fn locators_answer(
    alloc: Global,
    parts: &Items,
    from: u64,
    to: u64,
) -> Result<Option<Answer>, OutOfMemory>
    requires { to ≤ length (items_of parts.now) }
    ensures { IfOk result (λ r. r ≡ locators_answer (items_of parts.now) from to) }
{
    match locators_between(alloc, parts, from, to)? {
        Some(locators) => Ok(Some(Answer::Locators(locators))),
        None => Ok(None),
    }
}

/// The answer at the places from `from` on and before `to`.
#[tactic(auto, unfolding(crate::specs::ReadParts::answer_between))]
pub(crate) fn answer_between(
    alloc: Global,
    parts: &Items,
    from: u64,
    to: u64,
) -> Result<Option<Answer>, OutOfMemory>
    requires small { from < 2 ^ 32 }
    requires within { to ≤ length (items_of parts.now) }
    ensures { IfOk result (λ r. r ≡ answer_between (items_of parts.now) from to) }
{
    match kind_at(parts, from) {
        Some(100) => {
            if to == from + 1 {
                divert_answer(alloc, parts, from)
            } else {
                Ok(None)
            }
        }
        Some(_) => locators_answer(alloc, parts, from, to),
        None => Ok(None),
    }
}
