//! Strings, and an item of each kind.

use grasp_cbor::{
    Chars, FloatBits, Item, Items, Octets, OutOfMemory, Pairs, SimpleValue, build_whole,
    room_after, write_item,
};
use std::alloc::Global;
use std::test::Fail;

#[test]
fn strings_by_hand(rt: HostRuntime) -> Result<(), Fail> {
    let alloc = rt.alloc();
    let mut octets = Octets::of(alloc, b"\x01")?;
    octets.push(2)?;
    octets.append(b"\x03")?;
    assert!(rt; octets.copy()? == Octets::from_vec(octets.bytes().to_vec(alloc)?));
    assert_eq!(rt; (octets.len(), octets.at(2)), (3, Some(3)));
    let mut chars = Chars::new(alloc);
    chars.push('\u{e9}')?;
    chars.append("z")?;
    assert!(rt; Chars::of_bytes(alloc, b"\xc3\xa9z")? == Some(chars.copy()?));
    assert!(rt; Chars::of_bytes(alloc, b"\xc3")?.is_none());
    assert_eq!(rt;
        (chars.len(), chars.at(2), chars.text()),
        (3, Some(122), "\u{e9}z")
    );
    Ok(())
}

/// 32({1: [1000, -10, h'0102', "IETF", null, 1.0]})
fn item_of_each_kind(alloc: Global) -> Result<Item, OutOfMemory> {
    let mut items = Items::new(alloc);
    items.push(Item::Uint(1000))?;
    items.push(Item::Neg(9))?;
    items.push(Item::Bytes(Octets::of(alloc, b"\x01\x02")?))?;
    items.push(Item::Text(Chars::of(alloc, "IETF")?))?;
    if let Some(null) = SimpleValue::of(22) {
        items.push(Item::Simple(null))?;
    }
    items.push(Item::Float(FloatBits::Half(0x3c00)))?;
    let mut pairs = Pairs::new(alloc);
    pairs.push((Item::Uint(1), Item::List(items.copy()?)))?;
    let held = Item::Map(pairs.copy()?);
    Ok(Item::Tag(32, Box::new(alloc, held).map_err(OutOfMemory::from)?))
}

#[test]
fn items_by_hand(rt: HostRuntime) -> Result<(), Fail> {
    let alloc = rt.alloc();
    let item = item_of_each_kind(alloc)?.clone()?;
    let expected: &[u8] =
        b"\xd8\x20\xa1\x01\x86\x19\x03\xe8\x29\x42\x01\x02\x64IETF\xf6\xf9\x3c\x00";
    assert_eq!(rt; (item.depth(), room_after(&item, 21)), (3, Some(0)));
    assert!(rt; item.depth() <= 16);
    let mut out = Vec::new(alloc);
    write_item(&item, &mut out)?;
    assert!(rt; out.as_slice() == expected);
    let built = build_whole(alloc, &out)?;
    assert_eq!(rt; built.depth(), 3);
    Ok(())
}
