//! Addresses, protocols and ports of a line.

ghost use Rattle.std.specs.Prelude.{◌≡◌, ◌≤◌, ◌<◌, ◌^◌, ◌∷◌, ◌++◌, [], IfSome, ⊤, decimal};
ghost use Rattle.std.specs.Int.{to_be_bytes, w32, w128};
ghost use Rattle.grasp_cbor.specs.DataItem.{byte_string};
ghost use Rattle.grasp_types.specs.Address.{address_item, proto_item, proto_or_null, port_or_null, IsAddress};
ghost use Rattle.grasp_text.specs.Line.{address_word, v4_word, v6_word, proto_word, or_dash};
ghost use Rattle.grasp_text.specs.Words.{spaced};
ghost use Rattle.grasp_quick.specs.Packed.{Packs};

use crate::packed::front::behind;
use crate::packed::words::pack_number;
use crate::room::Room;
use grasp_text::address;
use grasp_types::Address;

/// The address whose word of so many digits stands behind a blank, and what follows.
#[inline(always)]
fn front_address(count: usize, line: &[u8]) -> Option<(Address, &[u8])>
    ensures word { IfSome result (λ p. line.now ≡ spaced (address_word p.0 ∷ []) ++ p.1.now) }
    ensures valid { IfSome result (λ p. IsAddress p.0) }
{
    let digits = behind(b" ", line)?;
    if digits.len() < count {
        return None;
    }
    let (word, rest) = digits.split_at(count);
    let address = address(word)?;
    Some((address, rest))
}

/// An address.
pub(crate) fn pack_address<'a>(line: &'a [u8], bytes: &mut Room) -> Option<&'a [u8]>
    ensures { IfSome result (λ rest. Packs (λ a. address_item a ∷ []) IsAddress (λ a. address_word a ∷ []) line.now rest.now bytes.old bytes.new) }
{
    let count = if let Some(b' ') = line.get(9) { 8 } else { 32 };
    let (address, rest) = front_address(count, line)?;
    match address {
        Address::V4(n) => bytes.put_string(2, &n.to_be_bytes())?,
        Address::V6(n) => bytes.put_string(2, &n.to_be_bytes())?,
    }
    Some(rest)
}

/// The number of an IPv4 address.
pub(crate) fn pack_ipv4<'a>(line: &'a [u8], bytes: &mut Room) -> Option<&'a [u8]>
    ensures { IfSome result (λ rest. Packs (λ n. byte_string (to_be_bytes w32 n) ∷ []) (λ n. n < 2 ^ 32) (λ n. v4_word n ∷ [])
        line.now rest.now bytes.old bytes.new) }
{
    let (address, rest) = front_address(8, line)?;
    let Address::V4(n) = address else {
        return None;
    };
    bytes.put_string(2, &n.to_be_bytes())?;
    Some(rest)
}

/// The number of an IPv6 address.
pub(crate) fn pack_ipv6<'a>(line: &'a [u8], bytes: &mut Room) -> Option<&'a [u8]>
    ensures { IfSome result (λ rest. Packs (λ n. byte_string (to_be_bytes w128 n) ∷ []) (λ n. n < 2 ^ 128) (λ n. v6_word n ∷ [])
        line.now rest.now bytes.old bytes.new) }
{
    let (address, rest) = front_address(32, line)?;
    let Address::V6(n) = address else {
        return None;
    };
    bytes.put_string(2, &n.to_be_bytes())?;
    Some(rest)
}

/// A transport protocol.
pub(crate) fn pack_proto<'a>(line: &'a [u8], bytes: &mut Room) -> Option<&'a [u8]>
    ensures { IfSome result (λ rest. Packs (λ p. proto_item p ∷ []) (λ p. ⊤) (λ p. proto_word p ∷ []) line.now rest.now bytes.old bytes.new) }
{
    if let Some(rest) = behind(b" tcp", line) {
        bytes.put_head(0, 6)?;
        return Some(rest);
    }
    let rest = behind(b" udp", line)?;
    bytes.put_head(0, 17)?;
    Some(rest)
}

/// A transport protocol, or a dash for none.
pub(crate) fn pack_proto_or_null<'a>(line: &'a [u8], bytes: &mut Room) -> Option<&'a [u8]>
    ensures { IfSome result (λ rest. Packs (λ p. proto_or_null p ∷ []) (λ p. ⊤) (λ p. or_dash proto_word p ∷ [])
        line.now rest.now bytes.old bytes.new) }
{
    if let Some(rest) = behind(b" -", line) {
        bytes.put(&[0xf6])?;
        return Some(rest);
    }
    pack_proto(line, bytes)
}

/// A port, or a dash for none.
pub(crate) fn pack_port_or_null<'a>(line: &'a [u8], bytes: &mut Room) -> Option<&'a [u8]>
    ensures { IfSome result (λ rest. Packs (λ p. port_or_null p ∷ []) (λ p. IfSome p (λ port. port ≤ 65535)) (λ p. or_dash decimal p ∷ [])
        line.now rest.now bytes.old bytes.new) }
{
    if let Some(rest) = behind(b" -", line) {
        bytes.put(&[0xf6])?;
        return Some(rest);
    }
    pack_number(65535, line, bytes)
}
