//! Making items of their bytes (RFC 8949, section 3).

ghost use Rattle.std.specs.Prelude.{◌≡◌, ℕ, ◌<◌, ◌≤◌, List, ◌++◌, length, IfOk};
ghost use Rattle.grasp_cbor.specs.DataItem.{DataItem, depth_of};
ghost use Rattle.grasp_cbor.specs.Item.{data_item_of, items_of, pairs_of};
ghost use Rattle.grasp_cbor.specs.Encodes.{IsEncoding};
ghost use Rattle.grasp_cbor.specs.Built.{IsBuilt};
ghost use Rattle.grasp_cbor.specs.Laws.{EncodingsAreApart};
ghost use Rattle.grasp_cbor.specs.declared.heads.StringKind.TheVariants as kinds;
ghost use Rattle.grasp_cbor.specs.Build.{Gives, found_as, simple_at, plain_of, many_with, pair_with, open_with, alone, chunk_at, nested_with};
ghost use Rattle.grasp_cbor.specs.Build.{content_with, opened_with, nested_in, item_at};

use crate::heads::{
    Argument, BuildError, Head, Major, Open, StringKind, read_break, read_byte_chunk, read_bytes,
    read_head, read_open, read_text, read_text_chunk,
};
use crate::{Chars, FloatBits, Item, Items, Octets, OutOfMemory, Pairs, SimpleValue};
use std::alloc::Global;

/// Bytes encode at most one item, and no encoding begins another.
#[tactic(auto, using(crate::proofs::Whole::one_encodes))]
pub fn encodings_are_apart()
    ensures { EncodingsAreApart }
{}

/// Makes the item that begins the bytes, which is so deep at most, and answers the bytes after it.
pub(crate) fn build_item(
    alloc: Global,
    bytes: &[u8],
    depth: u8,
) -> Result<(Item, &[u8]), BuildError>
    // What is made is encoded so.
    ensures found { IfOk result (λ p. IsBuilt depth bytes.now (data_item_of p.0) p.1.now) }
    // What is encoded so is made, unless memory runs out.
    ensures only { (t : DataItem) (s rest : List ℕ) → IsEncoding t s → depth_of t ≤ depth → bytes.now ≡ s ++ rest
        → Gives (λ p. (data_item_of p.0, p.1.now)) result (found_as t rest) }
{
    read_whole(alloc, bytes, depth)
}

/// What an array, a map or a tag holds: so many items or pairs, or as many as come before a break.
#[derive(Clone, Copy)]
enum Parts {
    Items(u64),
    Pairs(u64),
    Tagged(u64),
    OpenItems,
    OpenPairs,
}

#[cycle(read)]
#[tactic(auto, unfolding(crate::specs::Build::item_at, crate::specs::Build::item_with))]
fn read_whole(alloc: Global, bytes: &[u8], depth: u8) -> Result<(Item, &[u8]), BuildError>
    ensures { Gives (λ x. (data_item_of x.0, x.1.now)) result (item_at depth bytes.now) }
{
    match read_open(bytes) {
        Some((form, rest)) => read_opened(alloc, form, rest, depth),
        None => {
            let (head, rest) = read_head(bytes)?;
            read_content(alloc, head, rest, depth)
        }
    }
}

#[cycle(read)]
#[tactic(auto, unfolding(crate::specs::Build::content_with))]
fn read_content(
    alloc: Global,
    head: Head,
    bytes: &[u8],
    depth: u8,
) -> Result<(Item, &[u8]), BuildError>
    ensures { Gives (λ x. (data_item_of x.0, x.1.now)) result (content_with (nested_in depth) head.major head.argument bytes.now) }
{
    let n = head.argument.value();
    match head.major {
        Major::Unsigned => Ok((Item::Uint(n), bytes)),
        Major::Negative => Ok((Item::Neg(n), bytes)),
        Major::ByteString => {
            let (front, rest) = read_bytes(n, bytes)?;
            Ok((Item::Bytes(Octets::of(alloc, front)?), rest))
        }
        Major::TextString => {
            let (front, rest) = read_text(n, bytes)?;
            Ok((Item::Text(Chars::of(alloc, front)?), rest))
        }
        Major::Array => read_nested(alloc, Parts::Items(n), bytes, depth),
        Major::Map => read_nested(alloc, Parts::Pairs(n), bytes, depth),
        Major::Tag => read_nested(alloc, Parts::Tagged(n), bytes, depth),
        Major::Simple => {
            let item = plain_item(head.argument)?;
            Ok((item, bytes))
        }
    }
}

/// Reads what follows the initial byte of an item of indefinite length, up to its break.
#[cycle(read)]
#[tactic(auto, unfolding(crate::specs::Build::opened_with))]
fn read_opened(
    alloc: Global,
    form: Open,
    bytes: &[u8],
    depth: u8,
) -> Result<(Item, &[u8]), BuildError>
    ensures { Gives (λ x. (data_item_of x.0, x.1.now)) result (opened_with (nested_in depth) form bytes.now) }
{
    match form {
        Open::String(StringKind::Bytes) => {
            let (octets, rest) = read_byte_chunks(alloc, bytes)?;
            Ok((Item::Bytes(octets), rest))
        }
        Open::String(StringKind::Text) => {
            let (chars, rest) = read_text_chunks(alloc, bytes)?;
            Ok((Item::Text(chars), rest))
        }
        Open::Items => read_nested(alloc, Parts::OpenItems, bytes, depth),
        Open::Pairs => read_nested(alloc, Parts::OpenPairs, bytes, depth),
    }
}

/// Reads an array, a map or a tag, which takes one level.
#[cycle(read)]
#[tactic(auto, using(crate::proofs::Nested::levels))]
fn read_nested(
    alloc: Global,
    parts: Parts,
    bytes: &[u8],
    depth: u8,
) -> Result<(Item, &[u8]), BuildError>
    ensures { Gives (λ x. (data_item_of x.0, x.1.now)) result (nested_in depth parts bytes.now) }
{
    if depth == 0 {
        return Err(BuildError::NotItem);
    }
    read_parts(alloc, parts, bytes, depth - 1)
}

/// Reads what an array, a map or a tag holds, each part so deep at most.
#[cycle(read)]
#[tactic(auto, using(crate::proofs::Views::views), unfolding(crate::specs::Build::nested_with))]
fn read_parts(
    alloc: Global,
    parts: Parts,
    bytes: &[u8],
    depth: u8,
) -> Result<(Item, &[u8]), BuildError>
    ensures { Gives (λ x. (data_item_of x.0, x.1.now)) result (nested_with (item_at depth) parts bytes.now) }
{
    match parts {
        Parts::Items(n) => {
            let (items, rest) = read_items(alloc, bytes, n, depth)?;
            Ok((Item::List(items), rest))
        }
        Parts::Pairs(n) => {
            let (pairs, rest) = read_pairs(alloc, bytes, n, depth)?;
            Ok((Item::Map(pairs), rest))
        }
        Parts::Tagged(n) => {
            let (item, rest) = read_whole(alloc, bytes, depth)?;
            let tagged = Box::new(alloc, item).map_err(OutOfMemory::from)?;
            Ok((Item::Tag(n, tagged), rest))
        }
        Parts::OpenItems => {
            let (items, rest) = read_open_items(alloc, bytes, depth)?;
            Ok((Item::List(items), rest))
        }
        Parts::OpenPairs => {
            let (pairs, rest) = read_open_pairs(alloc, bytes, depth)?;
            Ok((Item::Map(pairs), rest))
        }
    }
}

#[cycle(read)]
fn read_items(
    alloc: Global,
    bytes: &[u8],
    count: u64,
    depth: u8,
) -> Result<(Items, &[u8]), BuildError>
    ensures { Gives (λ x. (items_of x.0, x.1.now)) result (many_with (item_at depth) count bytes.now) }
{
    let mut items = Items::new(alloc);
    let mut rest = bytes;
    for _ in 0..count {
        let (item, after) = read_whole(alloc, rest, depth)?;
        items.push(item)?;
        rest = after;
    }
    Ok((items, rest))
}

#[cycle(read)]
fn read_pairs(
    alloc: Global,
    bytes: &[u8],
    count: u64,
    depth: u8,
) -> Result<(Pairs, &[u8]), BuildError>
    ensures { Gives (λ x. (pairs_of x.0, x.1.now)) result (many_with (pair_with (item_at depth)) count bytes.now) }
{
    let mut pairs = Pairs::new(alloc);
    let mut rest = bytes;
    for _ in 0..count {
        let (key, value, after) = read_pair(alloc, rest, depth)?;
        pairs.push((key, value))?;
        rest = after;
    }
    Ok((pairs, rest))
}

/// Reads items up to a break.
#[cycle(read)]
fn read_open_items(alloc: Global, bytes: &[u8], depth: u8) -> Result<(Items, &[u8]), BuildError>
    ensures { Gives (λ x. (items_of x.0, x.1.now)) result (open_with (alone (item_at depth)) bytes.now) }
{
    let mut items = Items::new(alloc);
    let mut rest = bytes;
    loop {
        if let Some(after) = read_break(rest) {
            return Ok((items, after));
        }
        let (item, after) = read_whole(alloc, rest, depth)?;
        items.push(item)?;
        rest = after;
    }
}

/// Reads pairs up to a break.
#[cycle(read)]
fn read_open_pairs(alloc: Global, bytes: &[u8], depth: u8) -> Result<(Pairs, &[u8]), BuildError>
    ensures { Gives (λ x. (pairs_of x.0, x.1.now)) result (open_with (alone (pair_with (item_at depth))) bytes.now) }
{
    let mut pairs = Pairs::new(alloc);
    let mut rest = bytes;
    loop {
        if let Some(after) = read_break(rest) {
            return Ok((pairs, after));
        }
        let (key, value, after) = read_pair(alloc, rest, depth)?;
        pairs.push((key, value))?;
        rest = after;
    }
}

#[cycle(read)]
#[tactic(auto, unfolding(crate::specs::Build::pair_with))]
fn read_pair(alloc: Global, bytes: &[u8], depth: u8) -> Result<(Item, Item, &[u8]), BuildError>
    ensures { Gives (λ x. ((data_item_of x.0, data_item_of x.1), x.2.now)) result (pair_with (item_at depth) bytes.now) }
{
    let (key, rest) = read_whole(alloc, bytes, depth)?;
    let (value, rest) = read_whole(alloc, rest, depth)?;
    Ok((key, value, rest))
}

/// Joins the chunks of a byte string up to a break.
fn read_byte_chunks(alloc: Global, bytes: &[u8]) -> Result<(Octets, &[u8]), BuildError>
    ensures { Gives (λ x. (x.0, x.1.now)) result (open_with (chunk_at kinds.Bytes) bytes.now) }
{
    let mut octets = Octets::new(alloc);
    let mut rest = bytes;
    loop {
        if let Some(after) = read_break(rest) {
            return Ok((octets, after));
        }
        let (chunk, after) = read_byte_chunk(rest)?;
        octets.append(chunk)?;
        rest = after;
    }
}

/// Joins the chunks of a text string up to a break.
fn read_text_chunks(alloc: Global, bytes: &[u8]) -> Result<(Chars, &[u8]), BuildError>
    ensures { Gives (λ x. (x.0, x.1.now)) result (open_with (chunk_at kinds.Text) bytes.now) }
{
    let mut chars = Chars::new(alloc);
    let mut rest = bytes;
    loop {
        if let Some(after) = read_break(rest) {
            return Ok((chars, after));
        }
        let (chunk, after) = read_text_chunk(rest)?;
        chars.append(chunk)?;
        rest = after;
    }
}

/// The simple value or the float of an argument (RFC 8949, section 3.3).
fn plain_item(argument: Argument) -> Result<Item, BuildError>
    ensures { Gives data_item_of result (plain_of argument) }
{
    match argument {
        Argument::Direct(n) => simple_item(n),
        Argument::One(n) => {
            if n < 32 {
                Err(BuildError::NotItem)
            } else {
                simple_item(n)
            }
        }
        Argument::Two(n) => Ok(Item::Float(FloatBits::Half(n))),
        Argument::Four(n) => Ok(Item::Float(FloatBits::Single(n))),
        Argument::Eight(n) => Ok(Item::Float(FloatBits::Double(n))),
    }
}

fn simple_item(number: u8) -> Result<Item, BuildError>
    ensures { Gives data_item_of result (simple_at number) }
{
    match SimpleValue::of(number) {
        Some(value) => Ok(Item::Simple(value)),
        None => Err(BuildError::NotItem),
    }
}
