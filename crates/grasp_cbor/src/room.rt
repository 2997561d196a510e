//! How long a shortest encoding is, without making it.

ghost use Rattle.std.specs.Prelude.{◌≡◌, ◌+◌, ◌<◌, length, IfSome, IfNone};
ghost use Rattle.grasp_cbor.specs.DataItem.{data_items, data_pairs};
ghost use Rattle.grasp_cbor.specs.Item.{data_item_of, items_of, pairs_of, float_of};
ghost use Rattle.grasp_cbor.specs.Head.{simple_head};
ghost use Rattle.grasp_cbor.specs.Length.{head_length};
ghost use Rattle.grasp_cbor.specs.Shortest.{shortest, shortest_items, shortest_pairs};

use crate::{FloatBits, Item, Items, Pairs};

/// Of so many bytes, how many the item's shortest encoding (RFC 8949, section 4.2.1) leaves, or `None` where it needs
/// more. It takes no memory.
#[cycle(room)]
#[tactic(auto, using(crate::proofs::Lengths::lengths))]
pub fn room_after(item: &Item, room: u64) -> Option<u64>
    ensures some { IfSome result (λ left. left + length (shortest (data_item_of item.now)) ≡ room) }
    ensures none { IfNone result (room < length (shortest (data_item_of item.now))) }
{
    match item {
        Item::Uint(n) => room_after_head(*n, room),
        Item::Neg(n) => room_after_head(*n, room),
        Item::Bytes(octets) => room_after_string(octets.len(), room),
        Item::Text(chars) => room_after_string(chars.len(), room),
        Item::List(items) => room_after_items(items, room_after_head(items.len(), room)?),
        Item::Map(pairs) => room_after_pairs(pairs, room_after_head(pairs.len(), room)?),
        Item::Tag(number, item) => room_after(item, room_after_head(*number, room)?),
        Item::Simple(value) => room_after_simple(value.number(), room),
        Item::Float(bits) => room_after_float(bits, room),
    }
}

#[cycle(room)]
#[tactic(auto, using(crate::proofs::Lengths::lengths))]
fn room_after_items(items: &Items, room: u64) -> Option<u64>
    ensures some { IfSome result (λ left. left + length (shortest_items (data_items (items_of items.now))) ≡ room) }
    ensures none { IfNone result (room < length (shortest_items (data_items (items_of items.now)))) }
{
    let mut left = room;
    for item in items.slice() {
        left = room_after(item, left)?;
    }
    Some(left)
}

#[cycle(room)]
#[tactic(auto, using(crate::proofs::Lengths::lengths))]
fn room_after_pairs(pairs: &Pairs, room: u64) -> Option<u64>
    ensures some { IfSome result (λ left. left + length (shortest_pairs (data_pairs (pairs_of pairs.now))) ≡ room) }
    ensures none { IfNone result (room < length (shortest_pairs (data_pairs (pairs_of pairs.now)))) }
{
    let mut left = room;
    for (key, value) in pairs.slice() {
        let middle = room_after(key, left)?;
        left = room_after(value, middle)?;
    }
    Some(left)
}

/// Of so many bytes, how many the shortest head of this argument leaves (RFC 8949, section 3), whatever its major
/// type, or `None` where it needs more.
#[tactic(auto, unfolding(crate::specs::Length::head_length, crate::specs::Head::shortest_head, crate::specs::Head::shortest_size))]
pub fn room_after_head(n: u64, room: u64) -> Option<u64>
    ensures some { IfSome result (λ left. left + head_length n ≡ room) }
    ensures none { IfNone result (room < head_length n) }
{
    if n < 24 {
        room.checked_sub(1)
    } else if n < 0x100 {
        room.checked_sub(2)
    } else if n < 0x1_0000 {
        room.checked_sub(3)
    } else if n < 0x1_0000_0000 {
        room.checked_sub(5)
    } else {
        room.checked_sub(9)
    }
}

/// Of so many bytes, how many the shortest encoding of a string of this length leaves, or `None` where it needs more.
pub fn room_after_string(len: u64, room: u64) -> Option<u64>
    ensures some { IfSome result (λ left. left + (head_length len + len) ≡ room) }
    ensures none { IfNone result (room < head_length len + len) }
{
    room_after_head(len, room)?.checked_sub(len)
}

fn room_after_simple(number: u8, room: u64) -> Option<u64>
    ensures some { IfSome result (λ left. left + length (simple_head number) ≡ room) }
    ensures none { IfNone result (room < length (simple_head number)) }
{
    if number < 24 {
        room.checked_sub(1)
    } else {
        room.checked_sub(2)
    }
}

fn room_after_float(bits: &FloatBits, room: u64) -> Option<u64>
    ensures some { IfSome result (λ left. left + length (shortest (float_of bits.now)) ≡ room) }
    ensures none { IfNone result (room < length (shortest (float_of bits.now))) }
{
    match bits {
        FloatBits::Half(_) => room.checked_sub(3),
        FloatBits::Single(_) => room.checked_sub(5),
        FloatBits::Double(_) => room.checked_sub(9),
    }
}
