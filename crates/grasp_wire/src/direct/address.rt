//! Addresses, protocols and ports.

ghost use Rattle.std.specs.Prelude.{◌<◌, ◌^◌, IfSome};
ghost use Rattle.std.specs.Int.{to_be_bytes, w32, w128};
ghost use Rattle.grasp_cbor.specs.DataItem.{byte_string};
ghost use Rattle.grasp_cbor.specs.Leading.{Leads};
ghost use Rattle.grasp_types.specs.Address.{address_item, proto_item, proto_or_null, port_or_null, IsAddress};

use crate::direct::scalars::read_port;
use grasp_cbor::{read_byte_string, read_null, read_unsigned};
use grasp_types::{Address, Proto, ipv4_of_bytes, ipv6_of_bytes};

/// An address.
#[tactic(auto, using(crate::proofs::Straight::bytes_lead))]
pub(crate) fn read_address(bytes: &[u8]) -> Option<(Address, &[u8])>
    ensures leads { IfSome result (λ p. Leads (address_item p.0) bytes.now p.1.now) }
    ensures range { IfSome result (λ p. IsAddress p.0) }
{
    let (content, rest) = read_byte_string(bytes)?;
    let address = Address::of_bytes(content)?;
    Some((address, rest))
}

/// The number of an IPv4 address.
#[tactic(auto, using(crate::proofs::Straight::bytes_lead))]
pub(crate) fn read_ipv4(bytes: &[u8]) -> Option<(u32, &[u8])>
    ensures leads { IfSome result (λ p. Leads (byte_string (to_be_bytes w32 p.0)) bytes.now p.1.now) }
    ensures range { IfSome result (λ p. p.0 < 2 ^ 32) }
{
    let (content, rest) = read_byte_string(bytes)?;
    let address = ipv4_of_bytes(content)?;
    Some((address, rest))
}

/// The number of an IPv6 address.
#[tactic(auto, using(crate::proofs::Straight::bytes_lead))]
pub(crate) fn read_ipv6(bytes: &[u8]) -> Option<(u128, &[u8])>
    ensures leads { IfSome result (λ p. Leads (byte_string (to_be_bytes w128 p.0)) bytes.now p.1.now) }
    ensures range { IfSome result (λ p. p.0 < 2 ^ 128) }
{
    let (content, rest) = read_byte_string(bytes)?;
    let address = ipv6_of_bytes(content)?;
    Some((address, rest))
}

/// A transport protocol.
pub(crate) fn read_proto(bytes: &[u8]) -> Option<(Proto, &[u8])>
    ensures { IfSome result (λ p. Leads (proto_item p.0) bytes.now p.1.now) }
{
    let (number, rest) = read_unsigned(bytes)?;
    match number {
        6 => Some((Proto::Tcp, rest)),
        17 => Some((Proto::Udp, rest)),
        _ => None,
    }
}

/// A transport protocol, or null.
pub(crate) fn read_proto_or_null(bytes: &[u8]) -> Option<(Option<Proto>, &[u8])>
    ensures { IfSome result (λ p. Leads (proto_or_null p.0) bytes.now p.1.now) }
{
    if let Some(rest) = read_null(bytes) {
        return Some((None, rest));
    }
    let (proto, rest) = read_proto(bytes)?;
    Some((Some(proto), rest))
}

/// A port, or null.
pub(crate) fn read_port_or_null(bytes: &[u8]) -> Option<(Option<u16>, &[u8])>
    ensures leads { IfSome result (λ p. Leads (port_or_null p.0) bytes.now p.1.now) }
    ensures range { IfSome result (λ p. IfSome p.0 (λ port. port < 2 ^ 16)) }
{
    if let Some(rest) = read_null(bytes) {
        return Some((None, rest));
    }
    let (port, rest) = read_port(bytes)?;
    Some((Some(port), rest))
}
