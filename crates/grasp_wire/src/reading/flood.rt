//! Parts of a flood (RFC 8990, section 2.8.11).

ghost use Rattle.std.specs.Prelude.{◌≡◌, ◌<◌, ◌^◌, ◌∷◌, [], ◌++◌, length, IfOk, MatchOption, true, false};
ghost use Rattle.std.specs.List.{slice_range};
ghost use Rattle.grasp_cbor.specs.Item.{data_item_of, items_of};
ghost use Rattle.grasp_wire.specs.Reading.{at_place, one_or_more};
ghost use Rattle.grasp_wire.specs.ReadParts.{locator_or_empty_of, locator_or_empty_in, flood_part_of, flood_part_in};

use crate::reading::locator::locator_of;
use crate::reading::objective::objective_at;
use crate::reading::scalars::{parts_at, parts_of};
use grasp_cbor::{Item, Items, OutOfMemory};
use grasp_types::{FloodPart, FloodParts, Locator};
use std::alloc::Global;

#[tactic(auto, unfolding(crate::specs::ReadParts::locator_or_empty_of))]
fn locator_or_empty_of(parts: &Items) -> Result<Option<Option<Locator>>, OutOfMemory>
    ensures { IfOk result (λ r. r ≡ locator_or_empty_of (items_of parts.now)) }
{
    if parts.len() == 0 {
        return Ok(Some(None));
    }
    match locator_of(parts)? {
        Some(locator) => Ok(Some(Some(locator))),
        None => Ok(None),
    }
}

#[tactic(auto, unfolding(crate::specs::ReadParts::locator_or_empty_in))]
fn locator_or_empty_at(parts: &Items, place: u64) -> Result<Option<Option<Locator>>, OutOfMemory>
    ensures { IfOk result (λ r. r ≡ at_place locator_or_empty_in (items_of parts.now) place) }
{
    match parts_at(parts, place) {
        Some(inner) => locator_or_empty_of(inner),
        None => Ok(None),
    }
}

#[tactic(auto, unfolding(crate::specs::ReadParts::flood_part_of))]
fn flood_part_of(parts: &Items) -> Result<Option<FloodPart>, OutOfMemory>
    ensures { IfOk result (λ r. r ≡ flood_part_of (items_of parts.now)) }
{
    if parts.len() != 2 {
        return Ok(None);
    }
    let Some(objective) = objective_at(parts, 0)? else {
        return Ok(None);
    };
    let Some(locator) = locator_or_empty_at(parts, 1)? else {
        return Ok(None);
    };
    Ok(Some(FloodPart { objective, locator }))
}

#[tactic(auto, unfolding(crate::specs::ReadParts::flood_part_in))]
fn flood_part_in(item: &Item) -> Result<Option<FloodPart>, OutOfMemory>
    ensures { IfOk result (λ r. r ≡ flood_part_in (data_item_of item.now)) }
{
    match parts_of(item) {
        Some(parts) => flood_part_of(parts),
        None => Ok(None),
    }
}

/// The flood parts from this place on, of which there are one or more.
pub(crate) fn flood_parts_from(
    alloc: Global,
    parts: &Items,
    from: u64,
) -> Result<Option<FloodParts>, OutOfMemory>
    requires { from < 2 ^ 32 }
    ensures { IfOk result (λ r. r ≡ one_or_more flood_part_in (slice_range (items_of parts.now) from (length (items_of parts.now)))) }
{
    let Some(first) = parts.at(from) else {
        return Ok(None);
    };
    let Some(first) = flood_part_in(first)? else {
        return Ok(None);
    };
    let mut held = FloodParts::of(alloc, first)?;
    for item in &parts.slice()[from as usize + 1..] {
        if !push_flood_part(&mut held, item)? {
            return Ok(None);
        }
    }
    Ok(Some(held))
}

/// Adds the flood part that the item is, and answers whether it is one.
fn push_flood_part(held: &mut FloodParts, item: &Item) -> Result<bool, OutOfMemory>
    ensures { IfOk result (λ is_one. MatchOption (flood_part_in (data_item_of item.now)) (is_one ≡ false)
        (λ x. (is_one ≡ true) × (held.new ≡ held.old ++ x ∷ []))) }
{
    match flood_part_in(item)? {
        Some(part) => {
            held.push(part)?;
            Ok(true)
        }
        None => Ok(false),
    }
}
