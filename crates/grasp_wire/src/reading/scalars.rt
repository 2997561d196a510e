//! Numbers, nulls and arrays at a place of an array.

ghost use Rattle.std.specs.Prelude.{◌≡◌, option_map};
ghost use Rattle.grasp_cbor.specs.Item.{data_item_of, items_of};
ghost use Rattle.grasp_wire.specs.Reading.{at_place, test_at, is_there, number_in, text_in, parts_in, kind_in, is_null, has_text_first};
ghost use Rattle.grasp_wire.specs.ReadParts.{loops_in, port_in, narrow_in, flags_in};

use grasp_cbor::{Item, Items};
use grasp_types::Flags;

/// The parts of an array.
pub(crate) fn parts_of(item: &Item) -> Option<&Items>
    ensures { option_map (λ x. items_of x.now) result ≡ parts_in (data_item_of item.now) }
{
    match item {
        Item::List(parts) => Some(parts),
        _ => None,
    }
}

/// The parts of the array at this place.
pub(crate) fn parts_at(parts: &Items, place: u64) -> Option<&Items>
    ensures { option_map (λ x. items_of x.now) result ≡ at_place parts_in (items_of parts.now) place }
{
    match parts.at(place) {
        Some(item) => parts_of(item),
        None => None,
    }
}

/// The number at this place.
pub(crate) fn number_at(parts: &Items, place: u64) -> Option<u64>
    ensures { result ≡ at_place number_in (items_of parts.now) place }
{
    match parts.at(place) {
        Some(Item::Uint(n)) => Some(*n),
        _ => None,
    }
}

/// The number of 8 bits at this place.
#[tactic(auto, unfolding(crate::specs::ReadParts::loops_in))]
pub(crate) fn loops_at(parts: &Items, place: u64) -> Option<u8>
    ensures { result ≡ at_place loops_in (items_of parts.now) place }
{
    u8::try_from(number_at(parts, place)?).ok()
}

/// The number of 16 bits at this place.
#[tactic(auto, unfolding(crate::specs::ReadParts::port_in))]
pub(crate) fn port_at(parts: &Items, place: u64) -> Option<u16>
    ensures { result ≡ at_place port_in (items_of parts.now) place }
{
    u16::try_from(number_at(parts, place)?).ok()
}

/// The number of 32 bits at this place.
#[tactic(auto, unfolding(crate::specs::ReadParts::narrow_in))]
pub(crate) fn narrow_at(parts: &Items, place: u64) -> Option<u32>
    ensures { result ≡ at_place narrow_in (items_of parts.now) place }
{
    u32::try_from(number_at(parts, place)?).ok()
}

/// The flags at this place.
#[tactic(auto, unfolding(crate::specs::ReadParts::flags_in))]
pub(crate) fn flags_at(parts: &Items, place: u64) -> Option<Flags>
    ensures { result ≡ at_place flags_in (items_of parts.now) place }
{
    match u8::try_from(number_at(parts, place)?) {
        Ok(bits) => Flags::of(bits),
        Err(_) => None,
    }
}

/// Whether null stands at this place.
pub(crate) fn is_null_at(parts: &Items, place: u64) -> bool
    ensures { result ≡ test_at is_null (items_of parts.now) place }
{
    match parts.at(place) {
        Some(Item::Simple(value)) => value.number() == 22,
        _ => false,
    }
}

/// The number that the array at this place begins with.
#[tactic(auto, unfolding(crate::specs::Reading::kind_in))]
pub(crate) fn kind_at(parts: &Items, place: u64) -> Option<u64>
    ensures { result ≡ at_place kind_in (items_of parts.now) place }
{
    match parts_at(parts, place) {
        Some(inner) => number_at(inner, 0),
        None => None,
    }
}

/// Whether the array at this place begins with a text.
#[tactic(auto, unfolding(crate::specs::Reading::has_text_first))]
pub(crate) fn has_text_first_at(parts: &Items, place: u64) -> bool
    ensures { result ≡ test_at has_text_first (items_of parts.now) place }
{
    match parts_at(parts, place) {
        Some(inner) => has_text_at_front(inner),
        None => false,
    }
}

fn has_text_at_front(parts: &Items) -> bool
    ensures { result ≡ is_there (at_place text_in (items_of parts.now) 0) }
{
    match parts.at(0) {
        Some(Item::Text(_)) => true,
        _ => false,
    }
}
