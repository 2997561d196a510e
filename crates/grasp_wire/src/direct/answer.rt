//! What a response tells (RFC 8990, section 2.8.5).

ghost use Rattle.std.specs.Prelude.{◌≡◌, ◌≤◌, IfSome, length};
ghost use Rattle.grasp_cbor.specs.Leading.{Leads};
ghost use Rattle.grasp_types.specs.Message.{answer_items, IsAnswer};
ghost use Rattle.grasp_wire.specs.Direct.{LeadAll};

use crate::direct::locator::read_locators;
use grasp_cbor::{read_array_head, read_unsigned};
use grasp_types::Answer;
use std::alloc::Global;

/// How many parts of a response an answer is.
pub(crate) fn parts_of_answer(answer: &Answer) -> u64
    ensures { result ≡ length (answer_items answer.now) }
{
    match answer {
        Answer::Locators(locators) => locators.len(),
        Answer::Divert(_) => 1,
    }
}

/// An answer of so many parts at most.
pub(crate) fn read_answer(alloc: Global, most: u64, bytes: &[u8]) -> Option<(Answer, &[u8])>
    ensures leads { IfSome result (λ p. LeadAll (answer_items p.0) bytes.now p.1.now) }
    ensures range { IfSome result (λ p. IsAnswer p.0) }
    ensures few { IfSome result (λ p. length (answer_items p.0) ≤ most) }
{
    if most == 0 {
        return None;
    }
    if let Some(found) = read_divert(alloc, bytes) {
        return Some(found);
    }
    let (locators, rest) = read_locators(alloc, most, bytes)?;
    Some((Answer::Locators(locators), rest))
}

/// An O_DIVERT (RFC 8990, section 2.9.2).
fn read_divert(alloc: Global, bytes: &[u8]) -> Option<(Answer, &[u8])>
    ensures leads { IfSome result (λ p. LeadAll (answer_items p.0) bytes.now p.1.now) }
    ensures range { IfSome result (λ p. IsAnswer p.0) }
    ensures one { IfSome result (λ p. length (answer_items p.0) ≡ 1) }
{
    let (count, rest) = read_array_head(bytes)?;
    let (kind, rest) = read_unsigned(rest)?;
    if kind != 100 {
        return None;
    }
    let most = count.checked_sub(1)?;
    let (locators, rest) = read_locators(alloc, most, rest)?;
    if locators.len() != most {
        return None;
    }
    Some((Answer::Divert(locators), rest))
}
