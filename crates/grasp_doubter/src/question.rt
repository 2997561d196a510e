//! Questions of a prefix in doubt.

ghost use Rattle.std.specs.Prelude.{◌≡◌, ◌≤◌, Some, IfOk, IfSome, option_map, slice_get};
ghost use Rattle.grasp_cbor.specs.DataItem.{data_items, items_depth, array_of};
ghost use Rattle.grasp_cbor.specs.Item.{items_of};
ghost use Rattle.grasp_agent.specs.Values.{address_in, array_parts, bytes_in, length_in, number_in, offered_in, parts_in, prefix_in};
ghost use Rattle.grasp_types.specs.Address.{address_bytes};
ghost use Rattle.grasp_doubter.specs.Questions.{prefix_from, doubt_name, doubter_name, node_in, question_in, question_value, unknown_text};

use grasp_cbor::{Chars, Item, Items, Octets, OutOfMemory};
use grasp_types::{Address, Prefix, Value, ipv6_of_bytes};
use std::alloc::Global;

/// A question: the address of the node that is asked, and the prefix that it is asked of.
#[derive(Clone, Copy, Debug, PartialEq, Eq)]
pub struct Question {
    /// The node that is asked.
    pub address: Address,
    /// The prefix.
    pub prefix: Prefix,
}

/// The name under which who runs it registers the agent.
#[tactic(auto, unfolding(crate::specs::Questions::doubter_name))]
pub fn agent_name(alloc: Global) -> Result<Chars, OutOfMemory>
    ensures { IfOk result (λ name. name ≡ doubter_name) }
{
    Chars::of(alloc, "prefix doubt")
}

/// The name of its objective, which is registered for negotiations, with discovery left out, and listened for.
#[tactic(auto, unfolding(crate::specs::Questions::doubt_name))]
pub fn objective_name(alloc: Global) -> Result<Chars, OutOfMemory>
    ensures { IfOk result (λ name. name ≡ doubt_name) }
{
    Chars::of(alloc, "PrefixDoubt")
}

/// What a question is declined with.
#[tactic(auto, unfolding(crate::specs::Questions::unknown_text))]
pub(crate) fn unknown(alloc: Global) -> Result<Chars, OutOfMemory>
    ensures { IfOk result (λ text. text ≡ unknown_text) }
{
    Chars::of(alloc, "unknown")
}

/// The value that asks the node of this address of this prefix.
pub(crate) fn question_value(
    alloc: Global,
    address: Address,
    prefix: Prefix,
) -> Result<Value, OutOfMemory>
    ensures { IfOk result (λ value. value ≡ question_value address prefix) }
{
    let mut parts = Items::new(alloc);
    parts.push(Item::Bytes(address_octets(alloc, address)?))?;
    parts.push(Item::Uint(u64::from(prefix.length())))?;
    let first = Octets::of(alloc, &prefix.address().to_be_bytes())?;
    parts.push(Item::Bytes(first))?;
    Ok(value_of(parts))
}

/// The bytes of an address, the most significant first.
fn address_octets(alloc: Global, address: Address) -> Result<Octets, OutOfMemory>
    ensures { IfOk result (λ bytes. bytes ≡ address_bytes address) }
{
    match address {
        Address::V4(number) => Octets::of(alloc, &number.to_be_bytes()),
        Address::V6(number) => Octets::of(alloc, &number.to_be_bytes()),
    }
}

/// The value whose parts are these, which have no parts of their own.
#[tactic(auto, using(grasp_cbor::proofs::Views::views))]
fn value_of(parts: Items) -> Value
    requires { items_depth (data_items (items_of parts)) ≡ 0 }
    ensures { result ≡ array_of (items_of parts) }
{
    match Value::of(Item::List(parts)) {
        Ok(value) => value,
        Err(_) => unreachable!(),
    }
}

/// The question that a value is.
#[tactic(auto, unfolding(crate::specs::Questions::question_in))]
pub(crate) fn question_of(value: &Option<Value>) -> Option<Question>
    ensures { result ≡ question_in value.now }
{
    let Some(parts) = parts_of(value) else {
        return None;
    };
    if parts.len() != 3 {
        return None;
    }
    let address = node_at(parts)?;
    let prefix = prefix_at(parts, 1)?;
    Some(Question { address, prefix })
}

/// The parts of the array that a value is, where there is one.
fn parts_of(value: &Option<Value>) -> Option<&Items>
    ensures { option_map (λ parts. items_of parts.now) result ≡ parts_in value.now }
{
    match value {
        Some(value) => parts_in(value),
        None => None,
    }
}

/// The parts of the array that a value is.
fn parts_in(value: &Value) -> Option<&Items>
    ensures { option_map (λ parts. items_of parts.now) result ≡ array_parts value.now }
{
    match value.item() {
        Item::List(parts) => Some(parts),
        _ => None,
    }
}

/// The address of a node that stands first.
fn node_at(parts: &Items) -> Option<Address>
    ensures { result ≡ node_in (bytes_in (slice_get (items_of parts.now) 0)) }
{
    match parts.at(0) {
        Some(Item::Bytes(bytes)) => node_of(bytes.bytes()),
        _ => None,
    }
}

/// The address of 4 or 16 bytes, the most significant first.
fn node_of(bytes: &[u8]) -> Option<Address>
    ensures { result ≡ node_in (Some bytes.now) }
{
    Address::of_bytes(bytes)
}

/// The prefix that a value offers, where there is one.
#[tactic(auto, unfolding(grasp_agent::specs::Values::offered_in))]
pub(crate) fn offered_of(value: &Option<Value>) -> Option<Prefix>
    ensures { result ≡ offered_in value.now }
{
    match value {
        Some(value) => offered_in(value),
        None => None,
    }
}

/// The prefix that a value offers: it is [length, 16 bytes] (RFC 8992, section 5.1).
#[tactic(auto, unfolding(grasp_agent::specs::Values::offered_in))]
pub(crate) fn offered_in(value: &Value) -> Option<Prefix>
    ensures { result ≡ offered_in (Some value.now) }
{
    let Some(parts) = parts_in(value) else {
        return None;
    };
    if parts.len() != 2 {
        return None;
    }
    prefix_at(parts, 0)
}

/// The prefix whose length stands at this place, and whose first address stands behind it.
fn prefix_at(parts: &Items, place: u64) -> Option<Prefix>
    requires { place ≤ 1 }
    ensures { result ≡ prefix_from (items_of parts.now) place }
{
    let length = length_at(parts, place)?;
    let address = first_at(parts, place + 1)?;
    prefix_of(length, address)
}

/// The length of a prefix that stands at this place.
fn length_at(parts: &Items, place: u64) -> Option<u8>
    ensures length { result ≡ length_in (number_in (slice_get (items_of parts.now) place)) }
    ensures range { IfSome result (λ n. (1 ≤ n) × (n ≤ 128)) }
{
    match parts.at(place) {
        Some(Item::Uint(number)) if 1 <= *number && *number <= 128 => Some(*number as u8),
        _ => None,
    }
}

/// The first address of a prefix that stands at this place.
fn first_at(parts: &Items, place: u64) -> Option<u128>
    ensures { result ≡ address_in (bytes_in (slice_get (items_of parts.now) place)) }
{
    match parts.at(place) {
        Some(Item::Bytes(bytes)) => first_of(bytes.bytes()),
        _ => None,
    }
}

/// The number of 16 bytes, the most significant first.
fn first_of(bytes: &[u8]) -> Option<u128>
    ensures { result ≡ address_in (Some bytes.now) }
{
    ipv6_of_bytes(bytes)
}

/// The prefix of this length, 1 to 128, and this address, where no bit of the address past the length is set.
fn prefix_of(length: u8, address: u128) -> Option<Prefix>
    requires least { 1 ≤ length }
    requires most { length ≤ 128 }
    ensures { result ≡ prefix_in (Some length) (Some address) }
{
    Prefix::of(address, length)
}
