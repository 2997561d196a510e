//! Writing items in their shortest encoding: each head has the least width (RFC 8949, section 4.2.1), a float keeps its
//! width, and pairs keep their order.

ghost use Rattle.std.specs.Prelude.{vec_len, vec_capacity, ◌≡◌, ℕ, ◌+◌, ◌<◌, ◌≤◌, List, [], ◌∷◌, ◌++◌, OnOk, OnErr};
ghost use Rattle.grasp_cbor.specs.Bytes.{AllBytes};
ghost use Rattle.grasp_cbor.specs.DataItem.{depth_of, data_items, data_pairs};
ghost use Rattle.grasp_cbor.specs.Item.{data_item_of, items_of, pairs_of, float_of};
ghost use Rattle.grasp_cbor.specs.Encodable.{IsEncodable, AreEncodable, ArePairsEncodable};
ghost use Rattle.grasp_cbor.specs.Encodes.{Encodes};
ghost use Rattle.grasp_cbor.specs.Extends.{Extends};
ghost use Rattle.grasp_cbor.specs.Head.{shortest_head, simple_head};
ghost use Rattle.grasp_cbor.specs.Laws.{ShortestEncodes, EncodedAreEncodable};
ghost use Rattle.grasp_cbor.specs.Shortest.{shortest, shortest_items, shortest_pairs};

use crate::{FloatBits, Item, Items, OutOfMemory, Pairs};

/// The most bytes of a head.
const MOST_HEAD: usize = 9;

/// The shortest encoding of an item is one of its encodings, where its numbers are in range and it nests at most
/// 16 deep; and what fewer than 2 ^ 64 bytes encode has its numbers in range.
pub fn shortest_encodes()
    ensures shortest { ShortestEncodes }
    ensures encoded { EncodedAreEncodable }
{}

/// Appends the shortest encoding of an item to `out`. After an `Err` the vector is as before.
#[tactic(auto, using(crate::proofs::Shortest::encoding))]
pub fn write_item(item: &Item, out: &mut Vec<u8>) -> Result<(), OutOfMemory>
    requires { depth_of (data_item_of item.now) ≤ 16 }
    ensures ok { OnOk result (out.new.items ≡ out.old.items ++ shortest (data_item_of item.now)) }
    ensures encodes { OnOk result (Encodes (data_item_of item.now) (shortest (data_item_of item.now))) }
    ensures encodable { OnOk result (IsEncodable (data_item_of item.now)) }
    ensures err { OnErr result (out.new.items ≡ out.old.items) }
{
    let len = out.len();
    let written = write_parts(out, item);
    if written.is_err() {
        out.truncate(len);
    }
    written
}

/// Appends the shortest encoding of an item, or the beginning of it where there is no memory.
#[cycle(write)]
#[tactic(auto, using(crate::proofs::Counts::steps))]
fn write_parts(out: &mut Vec<u8>, item: &Item) -> Result<(), OutOfMemory>
    ensures ok { OnOk result (out.new.items ≡ out.old.items ++ shortest (data_item_of item.now)) }
    ensures encodable { OnOk result (IsEncodable (data_item_of item.now)) }
    ensures err { Extends out.old.items out.new.items }
{
    match item {
        Item::Uint(n) => write_head(out, 0, *n),
        Item::Neg(n) => write_head(out, 1, *n),
        Item::Bytes(octets) => {
            write_head(out, 2, octets.len())?;
            append(out, octets.bytes())
        }
        Item::Text(chars) => {
            write_head(out, 3, chars.len())?;
            append(out, chars.bytes())
        }
        Item::List(items) => {
            write_head(out, 4, items.len())?;
            write_list(out, items)
        }
        Item::Map(pairs) => {
            write_head(out, 5, pairs.len())?;
            write_map(out, pairs)
        }
        Item::Tag(number, item) => {
            write_head(out, 6, *number)?;
            write_parts(out, item)
        }
        Item::Simple(value) => write_simple(out, value.number()),
        Item::Float(bits) => write_float(out, bits),
    }
}

#[cycle(write)]
#[tactic(auto, using(crate::proofs::Counts::steps))]
fn write_list(out: &mut Vec<u8>, items: &Items) -> Result<(), OutOfMemory>
    ensures ok { OnOk result (out.new.items ≡ out.old.items ++ shortest_items (data_items (items_of items.now))) }
    ensures encodable { OnOk result (AreEncodable (data_items (items_of items.now))) }
    ensures err { Extends out.old.items out.new.items }
{
    for item in items.slice() {
        write_parts(out, item)?;
    }
    Ok(())
}

#[cycle(write)]
#[tactic(auto, using(crate::proofs::Counts::steps))]
fn write_map(out: &mut Vec<u8>, pairs: &Pairs) -> Result<(), OutOfMemory>
    ensures ok { OnOk result (out.new.items ≡ out.old.items ++ shortest_pairs (data_pairs (pairs_of pairs.now))) }
    ensures encodable { OnOk result (ArePairsEncodable (data_pairs (pairs_of pairs.now))) }
    ensures err { Extends out.old.items out.new.items }
{
    for (key, value) in pairs.slice() {
        write_parts(out, key)?;
        write_parts(out, value)?;
    }
    Ok(())
}

/// Appends the shortest head of a major type and an argument. After an `Err` the vector is as before.
#[inline(always)]
pub(crate) fn write_head(out: &mut Vec<u8>, major: u8, n: u64) -> Result<(), OutOfMemory>
    requires { major < 8 }
    ensures ok { OnOk result (out.new.items ≡ out.old.items ++ shortest_head major n) }
    ensures err { OnErr result (out.new.items ≡ out.old.items) }
{
    if out.capacity() - out.len() < MOST_HEAD {
        return write_head_in_new_room(out, major, n);
    }
    push_head(out, major, n);
    Ok(())
}

/// As `write_head`, after more room was asked for.
#[cold]
#[inline(never)]
fn write_head_in_new_room(out: &mut Vec<u8>, major: u8, n: u64) -> Result<(), OutOfMemory>
    requires { major < 8 }
    ensures ok { OnOk result (out.new.items ≡ out.old.items ++ shortest_head major n) }
    ensures err { OnErr result (out.new.items ≡ out.old.items) }
{
    out.reserve(MOST_HEAD)?;
    push_head(out, major, n);
    Ok(())
}

/// Appends the shortest head of a major type and an argument, for which there is room.
#[inline(always)]
#[tactic(auto, unfolding(crate::specs::Head::shortest_head, crate::specs::Head::shortest_size))]
fn push_head(out: &mut Vec<u8>, major: u8, n: u64)
    requires major { major < 8 }
    requires room { vec_len out.old + 9 ≤ vec_capacity out.old }
    ensures { out.new.items ≡ out.old.items ++ shortest_head major n }
{
    let first = major * 32;
    if n < 24 {
        out.push_reserved(first + n as u8);
    } else if n < 0x100 {
        out.push_reserved(first + 24);
        out.push_reserved(n as u8);
    } else if n < 0x1_0000 {
        let [a, b] = (n as u16).to_be_bytes();
        out.push_reserved(first + 25);
        out.push_reserved(a);
        out.push_reserved(b);
    } else if n < 0x1_0000_0000 {
        let [a, b, c, d] = (n as u32).to_be_bytes();
        out.push_reserved(first + 26);
        out.push_reserved(a);
        out.push_reserved(b);
        out.push_reserved(c);
        out.push_reserved(d);
    } else {
        let [a, b, c, d, e, f, g, h] = n.to_be_bytes();
        out.push_reserved(first + 27);
        out.push_reserved(a);
        out.push_reserved(b);
        out.push_reserved(c);
        out.push_reserved(d);
        out.push_reserved(e);
        out.push_reserved(f);
        out.push_reserved(g);
        out.push_reserved(h);
    }
}

fn write_simple(out: &mut Vec<u8>, number: u8) -> Result<(), OutOfMemory>
    ensures ok { OnOk result (out.new.items ≡ out.old.items ++ simple_head number) }
    ensures err { OnErr result (out.new.items ≡ out.old.items) }
{
    if number < 24 {
        push(out, 224 + number)
    } else {
        append(out, &[248, number])
    }
}

fn write_float(out: &mut Vec<u8>, bits: &FloatBits) -> Result<(), OutOfMemory>
    ensures ok { OnOk result (out.new.items ≡ out.old.items ++ shortest (float_of bits.now)) }
    ensures encodable { IsEncodable (float_of bits.now) }
    ensures err { OnErr result (out.new.items ≡ out.old.items) }
{
    match *bits {
        FloatBits::Half(n) => {
            let [a, b] = n.to_be_bytes();
            append(out, &[249, a, b])
        }
        FloatBits::Single(n) => {
            let [a, b, c, d] = n.to_be_bytes();
            append(out, &[250, a, b, c, d])
        }
        FloatBits::Double(n) => {
            let [a, b, c, d, e, f, g, h] = n.to_be_bytes();
            append(out, &[251, a, b, c, d, e, f, g, h])
        }
    }
}

/// Appends one byte.
pub(crate) fn push(out: &mut Vec<u8>, byte: u8) -> Result<(), OutOfMemory>
    ensures ok { OnOk result (out.new.items ≡ out.old.items ++ byte ∷ []) }
    ensures err { OnErr result (out.new.items ≡ out.old.items) }
{
    out.push(byte)?;
    Ok(())
}

pub(crate) fn append(out: &mut Vec<u8>, bytes: &[u8]) -> Result<(), OutOfMemory>
    ensures bytes { AllBytes bytes.now }
    ensures ok { OnOk result (out.new.items ≡ out.old.items ++ bytes.now) }
    ensures err { OnErr result (out.new.items ≡ out.old.items) }
{
    out.extend_from_slice(bytes)?;
    Ok(())
}
