//! Addresses and protocols at a place of an array.

ghost use Rattle.std.specs.Prelude.{◌≡◌};
ghost use Rattle.grasp_cbor.specs.Item.{items_of};
ghost use Rattle.grasp_wire.specs.Reading.{at_place, or_null};
ghost use Rattle.grasp_wire.specs.ReadParts.{port_in, ipv4_of, ipv6_of, address_of, ipv4_in, ipv6_in, address_in, proto_in};

use crate::reading::scalars::{is_null_at, number_at, port_at};
use grasp_cbor::{Item, Items};
use grasp_types::{Address, Proto, ipv4_of_bytes, ipv6_of_bytes};

fn ipv4_of(bytes: &[u8]) -> Option<u32>
    ensures { result ≡ ipv4_of bytes.now }
{
    ipv4_of_bytes(bytes)
}

fn ipv6_of(bytes: &[u8]) -> Option<u128>
    ensures { result ≡ ipv6_of bytes.now }
{
    ipv6_of_bytes(bytes)
}

fn address_of(bytes: &[u8]) -> Option<Address>
    ensures { result ≡ address_of bytes.now }
{
    Address::of_bytes(bytes)
}

/// The number of the IPv4 address at this place.
#[tactic(auto, unfolding(crate::specs::ReadParts::ipv4_in))]
pub(crate) fn ipv4_at(parts: &Items, place: u64) -> Option<u32>
    ensures { result ≡ at_place ipv4_in (items_of parts.now) place }
{
    match parts.at(place) {
        Some(Item::Bytes(bytes)) => ipv4_of(bytes.bytes()),
        _ => None,
    }
}

/// The number of the IPv6 address at this place.
#[tactic(auto, unfolding(crate::specs::ReadParts::ipv6_in))]
pub(crate) fn ipv6_at(parts: &Items, place: u64) -> Option<u128>
    ensures { result ≡ at_place ipv6_in (items_of parts.now) place }
{
    match parts.at(place) {
        Some(Item::Bytes(bytes)) => ipv6_of(bytes.bytes()),
        _ => None,
    }
}

/// The address at this place.
#[tactic(auto, unfolding(crate::specs::ReadParts::address_in))]
pub(crate) fn address_at(parts: &Items, place: u64) -> Option<Address>
    ensures { result ≡ at_place address_in (items_of parts.now) place }
{
    match parts.at(place) {
        Some(Item::Bytes(bytes)) => address_of(bytes.bytes()),
        _ => None,
    }
}

/// The transport protocol at this place.
#[tactic(auto, unfolding(crate::specs::ReadParts::proto_in))]
pub(crate) fn proto_at(parts: &Items, place: u64) -> Option<Proto>
    ensures { result ≡ at_place proto_in (items_of parts.now) place }
{
    match number_at(parts, place)? {
        6 => Some(Proto::Tcp),
        17 => Some(Proto::Udp),
        _ => None,
    }
}

/// The transport protocol at this place, or none where null stands there.
pub(crate) fn proto_or_null_at(parts: &Items, place: u64) -> Option<Option<Proto>>
    ensures { result ≡ at_place (or_null proto_in) (items_of parts.now) place }
{
    if is_null_at(parts, place) {
        return Some(None);
    }
    Some(Some(proto_at(parts, place)?))
}

/// The port at this place, or none where null stands there.
pub(crate) fn port_or_null_at(parts: &Items, place: u64) -> Option<Option<u16>>
    ensures { result ≡ at_place (or_null port_in) (items_of parts.now) place }
{
    if is_null_at(parts, place) {
        return Some(None);
    }
    Some(Some(port_at(parts, place)?))
}
