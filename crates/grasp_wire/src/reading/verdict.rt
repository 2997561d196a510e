//! Verdicts (RFC 8990, sections 2.9.3 and 2.9.4).

ghost use Rattle.std.specs.Prelude.{◌≡◌, IfOk};
ghost use Rattle.grasp_cbor.specs.Item.{items_of};
ghost use Rattle.grasp_wire.specs.Reading.{at_place, text_in, last_at};
ghost use Rattle.grasp_wire.specs.ReadParts.{verdict_of, verdict_in};

use crate::reading::scalars::{number_at, parts_at};
use grasp_cbor::{Chars, Item, Items, OutOfMemory};
use grasp_types::Verdict;

/// The last text, at place 1, or none where the array ends before it.
fn reason_of(parts: &Items) -> Result<Option<Option<Chars>>, OutOfMemory>
    ensures { IfOk result (λ r. r ≡ last_at text_in (items_of parts.now) 1) }
{
    if parts.len() == 1 {
        return Ok(Some(None));
    }
    if parts.len() != 2 {
        return Ok(None);
    }
    match parts.at(1) {
        Some(Item::Text(reason)) => Ok(Some(Some(reason.copy()?))),
        _ => Ok(None),
    }
}

#[tactic(auto, unfolding(crate::specs::ReadParts::verdict_of))]
fn verdict_of(parts: &Items) -> Result<Option<Verdict>, OutOfMemory>
    ensures { IfOk result (λ r. r ≡ verdict_of (items_of parts.now)) }
{
    match number_at(parts, 0) {
        Some(101) => {
            if parts.len() == 1 {
                Ok(Some(Verdict::Accept))
            } else {
                Ok(None)
            }
        }
        Some(102) => match reason_of(parts)? {
            Some(reason) => Ok(Some(Verdict::Decline(reason))),
            None => Ok(None),
        },
        _ => Ok(None),
    }
}

/// The verdict at this place.
#[tactic(auto, unfolding(crate::specs::ReadParts::verdict_in))]
pub(crate) fn verdict_at(parts: &Items, place: u64) -> Result<Option<Verdict>, OutOfMemory>
    ensures { IfOk result (λ r. r ≡ at_place verdict_in (items_of parts.now) place) }
{
    match parts_at(parts, place) {
        Some(inner) => verdict_of(inner),
        None => Ok(None),
    }
}
