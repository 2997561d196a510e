//! Addresses, protocols and ports.

ghost use Rattle.std.specs.Prelude.{◌≤◌, ◌<◌, ◌^◌, ◌∷◌, [], IfSome, ⊤, decimal};
ghost use Rattle.std.specs.Int.{to_be_bytes, w32, w128};
ghost use Rattle.grasp_cbor.specs.DataItem.{byte_string};
ghost use Rattle.grasp_types.specs.Address.{address_item, proto_item, proto_or_null, port_or_null, IsAddress};
ghost use Rattle.grasp_text.specs.Line.{address_word, v4_word, v6_word, proto_word, or_dash};
ghost use Rattle.grasp_quick.specs.Spelled.{Spells};

use crate::room::Room;
use crate::shown::below;
use grasp_cbor::{read_byte_string, read_null, read_unsigned};
use grasp_types::{Address, ipv4_of_bytes, ipv6_of_bytes};

/// An address.
pub(crate) fn spell_address<'a>(bytes: &'a [u8], line: &mut Room) -> Option<&'a [u8]>
    ensures { IfSome result (λ rest. Spells address_item IsAddress (λ a. address_word a ∷ []) bytes.now rest.now line.old line.new) }
{
    let (content, rest) = read_byte_string(bytes)?;
    let address = Address::of_bytes(content)?;
    line.put_octets(content)?;
    Some(rest)
}

/// The number of an IPv4 address.
pub(crate) fn spell_ipv4<'a>(bytes: &'a [u8], line: &mut Room) -> Option<&'a [u8]>
    ensures { IfSome result (λ rest. Spells (λ n. byte_string (to_be_bytes w32 n)) (λ n. n < 2 ^ 32) (λ n. v4_word n ∷ [])
        bytes.now rest.now line.old line.new) }
{
    let (content, rest) = read_byte_string(bytes)?;
    let address = ipv4_of_bytes(content)?;
    line.put_octets(content)?;
    Some(rest)
}

/// The number of an IPv6 address.
pub(crate) fn spell_ipv6<'a>(bytes: &'a [u8], line: &mut Room) -> Option<&'a [u8]>
    ensures { IfSome result (λ rest. Spells (λ n. byte_string (to_be_bytes w128 n)) (λ n. n < 2 ^ 128) (λ n. v6_word n ∷ [])
        bytes.now rest.now line.old line.new) }
{
    let (content, rest) = read_byte_string(bytes)?;
    let address = ipv6_of_bytes(content)?;
    line.put_octets(content)?;
    Some(rest)
}

/// A transport protocol.
pub(crate) fn spell_proto<'a>(bytes: &'a [u8], line: &mut Room) -> Option<&'a [u8]>
    ensures { IfSome result (λ rest. Spells proto_item (λ p. ⊤) (λ p. proto_word p ∷ []) bytes.now rest.now line.old line.new) }
{
    let (number, rest) = read_unsigned(bytes)?;
    match number {
        6 => {
            line.put(b" tcp")?;
            Some(rest)
        }
        17 => {
            line.put(b" udp")?;
            Some(rest)
        }
        _ => None,
    }
}

/// A transport protocol, or null.
pub(crate) fn spell_proto_or_null<'a>(bytes: &'a [u8], line: &mut Room) -> Option<&'a [u8]>
    ensures { IfSome result (λ rest. Spells proto_or_null (λ p. ⊤) (λ p. or_dash proto_word p ∷ []) bytes.now rest.now line.old line.new) }
{
    if let Some(rest) = read_null(bytes) {
        line.put(b" -")?;
        return Some(rest);
    }
    spell_proto(bytes, line)
}

/// A port, or null.
pub(crate) fn spell_port_or_null<'a>(bytes: &'a [u8], line: &mut Room) -> Option<&'a [u8]>
    ensures { IfSome result (λ rest. Spells port_or_null (λ p. IfSome p (λ port. port ≤ 65535)) (λ p. or_dash decimal p ∷ [])
        bytes.now rest.now line.old line.new) }
{
    if let Some(rest) = read_null(bytes) {
        line.put(b" -")?;
        return Some(rest);
    }
    below(65535, bytes, line)
}
