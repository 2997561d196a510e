//! Values of PrefixManager (RFC 8992, section 5.1).

ghost use Rattle.std.specs.Prelude.{◌≡◌, ◌≤◌, Some, IfOk, IfSome, option_map, slice_get};
ghost use Rattle.grasp_cbor.specs.DataItem.{data_items, items_depth, array_of};
ghost use Rattle.grasp_cbor.specs.Item.{items_of};
ghost use Rattle.grasp_agent.specs.Values.{length_value, prefix_value, return_value, is_true_in, returned_in, length_at, address_at, address_in};
ghost use Rattle.grasp_agent.specs.Values.{prefix_in, parts_in, asked_in, offered_in};

use grasp_cbor::{Item, Items, Octets, OutOfMemory, SimpleValue};
use grasp_types::{Prefix, Value, ipv6_of_bytes};
use std::alloc::Global;

/// The value that asks for a prefix of this length.
pub(crate) fn length_value(alloc: Global, length: u8) -> Result<Value, OutOfMemory>
    ensures { IfOk result (λ value. value ≡ length_value length) }
{
    let mut parts = Items::new(alloc);
    parts.push(Item::Uint(u64::from(length)))?;
    Ok(value_of(parts))
}

/// The value that offers this prefix.
pub(crate) fn prefix_value(alloc: Global, prefix: Prefix) -> Result<Value, OutOfMemory>
    ensures { IfOk result (λ value. value ≡ prefix_value prefix) }
{
    let mut parts = Items::new(alloc);
    parts.push(Item::Uint(u64::from(prefix.length())))?;
    let address = Octets::of(alloc, &prefix.address().to_be_bytes())?;
    parts.push(Item::Bytes(address))?;
    Ok(value_of(parts))
}

/// The simple value true (RFC 8949, section 3.3).
const TRUE: u8 = 21;

/// The value that gives this prefix back.
pub(crate) fn return_value(alloc: Global, prefix: Prefix) -> Result<Value, OutOfMemory>
    ensures { IfOk result (λ value. value ≡ return_value prefix) }
{
    let mut parts = Items::new(alloc);
    parts.push(Item::Uint(u64::from(prefix.length())))?;
    let address = Octets::of(alloc, &prefix.address().to_be_bytes())?;
    parts.push(Item::Bytes(address))?;
    let Some(yes) = SimpleValue::of(TRUE) else {
        unreachable!()
    };
    parts.push(Item::Simple(yes))?;
    Ok(value_of(parts))
}

/// The value whose parts are these, which have no parts of their own.
#[tactic(auto, using(grasp_cbor::proofs::Views::views))]
fn value_of(parts: Items) -> Value
    requires { items_depth (data_items (items_of parts)) ≡ 0 }
    ensures { result ≡ array_of (items_of parts) }
{
    match Value::of(Item::List(parts)) {
        Ok(value) => value,
        Err(_) => unreachable!(),
    }
}

/// The parts of the array that a value is.
fn parts_of(value: &Option<Value>) -> Option<&Items>
    ensures { option_map (λ parts. items_of parts.now) result ≡ parts_in value.now }
{
    let Some(value) = value else { return None };
    match value.item() {
        Item::List(parts) => Some(parts),
        _ => None,
    }
}

/// The length that a value asks for: it is [length] or [length, 16 bytes], with a length of 1 to 128.
#[tactic(auto, unfolding(crate::specs::Values::asked_in))]
pub(crate) fn asked_length(value: &Option<Value>) -> Option<u8>
    ensures length { result ≡ asked_in value.now }
    ensures range { IfSome result (λ n. (1 ≤ n) × (n ≤ 128)) }
{
    let Some(parts) = parts_of(value) else {
        return None;
    };
    match parts.len() {
        1 => length_at(parts),
        2 => {
            address_at(parts)?;
            length_at(parts)
        }
        _ => None,
    }
}

/// The prefix that a value offers: it is [length, 16 bytes].
#[tactic(auto, unfolding(crate::specs::Values::offered_in))]
pub(crate) fn offered_prefix(value: &Option<Value>) -> Option<Prefix>
    ensures { result ≡ offered_in value.now }
{
    let Some(parts) = parts_of(value) else {
        return None;
    };
    if parts.len() != 2 {
        return None;
    }
    let length = length_at(parts)?;
    prefix_at(length, address_at(parts)?)
}

/// The prefix that a value gives back: it is [length, 16 bytes, true].
#[tactic(auto, unfolding(crate::specs::Values::returned_in))]
pub(crate) fn returned_prefix(value: &Option<Value>) -> Option<Prefix>
    ensures { result ≡ returned_in value.now }
{
    let Some(parts) = parts_of(value) else {
        return None;
    };
    if parts.len() != 3 || !is_true_at(parts) {
        return None;
    }
    let length = length_at(parts)?;
    prefix_at(length, address_at(parts)?)
}

/// Whether true stands third.
fn is_true_at(parts: &Items) -> bool
    ensures { result ≡ is_true_in (slice_get (items_of parts.now) 2) }
{
    match parts.at(2) {
        Some(Item::Simple(value)) => value.number() == TRUE,
        _ => false,
    }
}

/// The length of a prefix that stands first.
fn length_at(parts: &Items) -> Option<u8>
    ensures length { result ≡ length_at (items_of parts.now) }
    ensures range { IfSome result (λ n. (1 ≤ n) × (n ≤ 128)) }
{
    match parts.at(0) {
        Some(Item::Uint(number)) if 1 <= *number && *number <= 128 => Some(*number as u8),
        _ => None,
    }
}

/// The address that stands second.
fn address_at(parts: &Items) -> Option<u128>
    ensures { result ≡ address_at (items_of parts.now) }
{
    match parts.at(1) {
        Some(Item::Bytes(bytes)) => address_of(bytes.bytes()),
        _ => None,
    }
}

/// The number of 16 bytes, the most significant first.
fn address_of(bytes: &[u8]) -> Option<u128>
    ensures { result ≡ address_in (Some bytes.now) }
{
    ipv6_of_bytes(bytes)
}

/// The prefix of this length, 1 to 128, and this address, where no bit of the address past the length is set.
fn prefix_at(length: u8, address: u128) -> Option<Prefix>
    requires least { 1 ≤ length }
    requires most { length ≤ 128 }
    ensures { result ≡ prefix_in (Some length) (Some address) }
{
    Prefix::of(address, length)
}
