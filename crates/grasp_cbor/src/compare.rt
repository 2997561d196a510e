//! Comparing bytes with the shortest encoding of an item.

ghost use Rattle.std.specs.Prelude.{◌≡◌, ℕ, ◌<◌, List, [], ◌∷◌, ◌++◌, IfSome, IfNone, option_map};
ghost use Rattle.grasp_cbor.specs.Behind.{behind};
ghost use Rattle.grasp_cbor.specs.DataItem.{data_items, data_pairs};
ghost use Rattle.grasp_cbor.specs.Item.{data_item_of, items_of, pairs_of, float_of};
ghost use Rattle.grasp_cbor.specs.Head.{shortest_head, simple_head};
ghost use Rattle.grasp_cbor.specs.Shortest.{shortest, shortest_items, shortest_pairs};

use crate::{FloatBits, Item, Items, Pairs};

/// What follows the shortest encoding (RFC 8949, section 4.2.1) of an item in bytes that begin with that, or `None` where
/// they begin otherwise. It takes no memory.
pub fn behind_shortest<'a>(item: &Item, bytes: &'a [u8]) -> Option<&'a [u8]>
    ensures some { IfSome result (λ rest. bytes.now ≡ shortest (data_item_of item.now) ++ rest.now) }
    ensures none { IfNone result ((rest : List ℕ) → ¬ (bytes.now ≡ shortest (data_item_of item.now) ++ rest)) }
{
    behind_item(item, bytes)
}

#[cycle(compare)]
#[tactic(auto, using(crate::proofs::Behind::behinds))]
fn behind_item<'a>(item: &Item, bytes: &'a [u8]) -> Option<&'a [u8]>
    ensures { option_map (λ s. s.now) result ≡ behind (shortest (data_item_of item.now)) bytes.now }
{
    match item {
        Item::Uint(n) => behind_head(0, *n, bytes),
        Item::Neg(n) => behind_head(1, *n, bytes),
        Item::Bytes(octets) => {
            let rest = behind_head(2, octets.len(), bytes)?;
            behind_bytes(octets.bytes(), rest)
        }
        Item::Text(chars) => {
            let rest = behind_head(3, chars.len(), bytes)?;
            behind_bytes(chars.bytes(), rest)
        }
        Item::List(items) => {
            let rest = behind_head(4, items.len(), bytes)?;
            behind_items(items, rest)
        }
        Item::Map(pairs) => {
            let rest = behind_head(5, pairs.len(), bytes)?;
            behind_pairs(pairs, rest)
        }
        Item::Tag(number, item) => {
            let rest = behind_head(6, *number, bytes)?;
            behind_item(item, rest)
        }
        Item::Simple(value) => behind_simple(value.number(), bytes),
        Item::Float(bits) => behind_float(bits, bytes),
    }
}

#[cycle(compare)]
#[tactic(auto, using(crate::proofs::Behind::behinds))]
fn behind_items<'a>(items: &Items, bytes: &'a [u8]) -> Option<&'a [u8]>
    ensures { option_map (λ s. s.now) result ≡ behind (shortest_items (data_items (items_of items.now))) bytes.now }
{
    let mut rest = bytes;
    for item in items.slice() {
        rest = behind_item(item, rest)?;
    }
    Some(rest)
}

#[cycle(compare)]
#[tactic(auto, using(crate::proofs::Behind::behinds))]
fn behind_pairs<'a>(pairs: &Pairs, bytes: &'a [u8]) -> Option<&'a [u8]>
    ensures { option_map (λ s. s.now) result ≡ behind (shortest_pairs (data_pairs (pairs_of pairs.now))) bytes.now }
{
    let mut rest = bytes;
    for (key, value) in pairs.slice() {
        let middle = behind_item(key, rest)?;
        rest = behind_item(value, middle)?;
    }
    Some(rest)
}

fn behind_simple(number: u8, bytes: &[u8]) -> Option<&[u8]>
    ensures { option_map (λ s. s.now) result ≡ behind (simple_head number) bytes.now }
{
    if number < 24 {
        behind_bytes(&[224 + number], bytes)
    } else {
        behind_bytes(&[248, number], bytes)
    }
}

fn behind_float<'a>(bits: &FloatBits, bytes: &'a [u8]) -> Option<&'a [u8]>
    ensures { option_map (λ s. s.now) result ≡ behind (shortest (float_of bits.now)) bytes.now }
{
    match *bits {
        FloatBits::Half(n) => {
            let [a, b] = n.to_be_bytes();
            behind_bytes(&[249, a, b], bytes)
        }
        FloatBits::Single(n) => {
            let [a, b, c, d] = n.to_be_bytes();
            behind_bytes(&[250, a, b, c, d], bytes)
        }
        FloatBits::Double(n) => {
            let [a, b, c, d, e, f, g, h] = n.to_be_bytes();
            behind_bytes(&[251, a, b, c, d, e, f, g, h], bytes)
        }
    }
}

#[tactic(auto, using(crate::proofs::Behind::behind_short), unfolding(crate::specs::Head::shortest_head, crate::specs::Head::shortest_size))]
fn behind_head(major: u8, n: u64, bytes: &[u8]) -> Option<&[u8]>
    requires { major < 8 }
    ensures { option_map (λ s. s.now) result ≡ behind (shortest_head major n) bytes.now }
{
    let first = major * 32;
    if n < 24 {
        behind_bytes(&[first + n as u8], bytes)
    } else if n < 0x100 {
        behind_bytes(&[first + 24, n as u8], bytes)
    } else if n < 0x1_0000 {
        let [a, b] = (n as u16).to_be_bytes();
        behind_bytes(&[first + 25, a, b], bytes)
    } else if n < 0x1_0000_0000 {
        let [a, b, c, d] = (n as u32).to_be_bytes();
        behind_bytes(&[first + 26, a, b, c, d], bytes)
    } else {
        let [a, b, c, d, e, f, g, h] = n.to_be_bytes();
        behind_bytes(&[first + 27, a, b, c, d, e, f, g, h], bytes)
    }
}

/// What follows these bytes in others, where those begin with them.
fn behind_bytes<'a>(front: &[u8], bytes: &'a [u8]) -> Option<&'a [u8]>
    ensures { option_map (λ s. s.now) result ≡ behind front.now bytes.now }
{
    let mut rest = bytes;
    for byte in front {
        let [first, after @ ..] = rest else {
            return None;
        };
        if first != byte {
            return None;
        }
        rest = after;
    }
    Some(rest)
}
