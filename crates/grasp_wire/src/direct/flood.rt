//! Parts of a flood (RFC 8990, section 2.8.11).

ghost use Rattle.std.specs.Prelude.{◌≡◌, IfSome, length, map};
ghost use Rattle.grasp_cbor.specs.Leading.{Leads};
ghost use Rattle.grasp_types.specs.Address.{IsLocator};
ghost use Rattle.grasp_types.specs.Message.{locator_or_empty, flood_part_item, IsFloodPart, AreFloodParts};
ghost use Rattle.grasp_wire.specs.Direct.{LeadAll};

use crate::direct::locator::read_locator_parts;
use crate::direct::objective::read_objective;
use grasp_cbor::read_array_head;
use grasp_types::{FloodPart, FloodParts, Locator};
use std::alloc::Global;

/// A locator, or the empty array.
fn read_locator_or_empty(alloc: Global, bytes: &[u8]) -> Option<(Option<Locator>, &[u8])>
    ensures leads { IfSome result (λ p. Leads (locator_or_empty p.0) bytes.now p.1.now) }
    ensures range { IfSome result (λ p. IfSome p.0 IsLocator) }
{
    let (count, rest) = read_array_head(bytes)?;
    if count == 0 {
        return Some((None, rest));
    }
    if count != 4 {
        return None;
    }
    let (locator, rest) = read_locator_parts(alloc, rest)?;
    Some((Some(locator), rest))
}

fn read_flood_part(alloc: Global, bytes: &[u8]) -> Option<(FloodPart, &[u8])>
    ensures leads { IfSome result (λ p. Leads (flood_part_item p.0) bytes.now p.1.now) }
    ensures range { IfSome result (λ p. IsFloodPart p.0) }
{
    let (count, rest) = read_array_head(bytes)?;
    if count != 2 {
        return None;
    }
    let (objective, rest) = read_objective(alloc, rest)?;
    let (locator, rest) = read_locator_or_empty(alloc, rest)?;
    Some((FloodPart { objective, locator }, rest))
}

/// So many parts, of which there are one or more.
pub(crate) fn read_flood_parts(
    alloc: Global,
    count: u64,
    bytes: &[u8],
) -> Option<(FloodParts, &[u8])>
    ensures leads { IfSome result (λ p. LeadAll (map flood_part_item p.0) bytes.now p.1.now) }
    ensures range { IfSome result (λ p. AreFloodParts p.0) }
    ensures all { IfSome result (λ p. length p.0 ≡ count) }
{
    if count == 0 {
        return None;
    }
    let (first, after) = read_flood_part(alloc, bytes)?;
    let Ok(mut held) = FloodParts::of(alloc, first) else {
        return None;
    };
    let mut rest = after;
    for i in 1..count {
        let (next, after) = read_flood_part(alloc, rest)?;
        let Ok(()) = held.push(next) else {
            return None;
        };
        rest = after;
    }
    Some((held, rest))
}
