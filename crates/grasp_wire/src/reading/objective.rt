//! Objectives (RFC 8990, section 2.10) and values.

ghost use Rattle.std.specs.Prelude.{◌≡◌, ◌<◌, ◌≤◌, ◌^◌, length, IfOk};
ghost use Rattle.grasp_cbor.specs.Item.{data_item_of, items_of};
ghost use Rattle.grasp_wire.specs.Reading.{at_place, last_at};
ghost use Rattle.grasp_wire.specs.ReadParts.{value_in, objective_of, objective_in};

use crate::reading::scalars::{flags_at, loops_at, parts_at};
use grasp_cbor::{Item, Items, OutOfMemory};
use grasp_types::{Objective, Value};

/// The value that the item is. It takes no memory where the item nests too deep.
#[tactic(auto, unfolding(crate::specs::ReadParts::value_in))]
fn value_in(item: &Item) -> Result<Option<Value>, OutOfMemory>
    ensures { IfOk result (λ r. r ≡ value_in (data_item_of item.now)) }
{
    if item.depth() > 13 {
        return Ok(None);
    }
    match Value::of(item.copy()?) {
        Ok(value) => Ok(Some(value)),
        Err(_) => Ok(None),
    }
}

fn value_at(parts: &Items, place: u64) -> Result<Option<Value>, OutOfMemory>
    ensures { IfOk result (λ r. r ≡ at_place value_in (items_of parts.now) place) }
{
    match parts.at(place) {
        Some(item) => value_in(item),
        None => Ok(None),
    }
}

/// The last value, at this place, or none where the array ends before it.
pub(crate) fn last_value_at(parts: &Items, place: u64) -> Result<Option<Option<Value>>, OutOfMemory>
    requires { place < 2 ^ 32 }
    ensures { IfOk result (λ r. r ≡ last_at value_in (items_of parts.now) place) }
{
    if parts.len() == place {
        return Ok(Some(None));
    }
    if parts.len() != place + 1 {
        return Ok(None);
    }
    match value_at(parts, place)? {
        Some(value) => Ok(Some(Some(value))),
        None => Ok(None),
    }
}

#[tactic(auto, unfolding(crate::specs::ReadParts::objective_of))]
fn objective_of(parts: &Items) -> Result<Option<Objective>, OutOfMemory>
    ensures { IfOk result (λ r. r ≡ objective_of (items_of parts.now)) }
{
    let Some(Item::Text(name)) = parts.at(0) else {
        return Ok(None);
    };
    let Some(flags) = flags_at(parts, 1) else {
        return Ok(None);
    };
    let Some(loops) = loops_at(parts, 2) else {
        return Ok(None);
    };
    let Some(value) = last_value_at(parts, 3)? else {
        return Ok(None);
    };
    let name = name.copy()?;
    Ok(Some(Objective {
        name,
        flags,
        loops,
        value,
    }))
}

/// The objective at this place.
#[tactic(auto, unfolding(crate::specs::ReadParts::objective_in))]
pub(crate) fn objective_at(parts: &Items, place: u64) -> Result<Option<Objective>, OutOfMemory>
    ensures { IfOk result (λ r. r ≡ at_place objective_in (items_of parts.now) place) }
{
    match parts_at(parts, place) {
        Some(inner) => objective_of(inner),
        None => Ok(None),
    }
}

/// The last objective, at this place, or none where the array ends before it.
pub(crate) fn last_objective_at(
    parts: &Items,
    place: u64,
) -> Result<Option<Option<Objective>>, OutOfMemory>
    requires { place ≤ length (items_of parts.now) }
    ensures { IfOk result (λ r. r ≡ last_at objective_in (items_of parts.now) place) }
{
    if parts.len() == place {
        return Ok(Some(None));
    }
    if parts.len() != place + 1 {
        return Ok(None);
    }
    match objective_at(parts, place)? {
        Some(objective) => Ok(Some(Some(objective))),
        None => Ok(None),
    }
}
