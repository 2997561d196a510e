//! Addresses and other bytes as hexadecimal words.

ghost use Rattle.std.specs.Prelude.{◌≡◌, ◌++◌, ◌∷◌, [], OnOk, OnErr, IfOk, IfSome, IfNone, option_map, string_bytes};
ghost use Rattle.std.specs.Int.{w32, w128};
ghost use Rattle.grasp_cbor.specs.Extends.{Extends};
ghost use Rattle.grasp_types.specs.Address.{IsAddress};
ghost use Rattle.grasp_types.specs.declared.address.Address.{Address};
ghost use Rattle.grasp_text.specs.Line.{address_word, v4_word, v6_word};
ghost use Rattle.grasp_text.specs.Reading.{v4_of, v6_of, address_of, bytes_of};
ghost use Rattle.grasp_text.specs.Words.{spaced};

use crate::digits::read_digits;
use grasp_cbor::OutOfMemory;
use grasp_types::Address;
use std::alloc::Global;

/// The IPv4 address of a word of 8 lower-case hexadecimal digits, or `None`.
pub(crate) fn v4_address(word: &[u8]) -> Option<u32>
    ensures { result ≡ v4_of word.now }
{
    let mut bytes = [0u8; 4];
    if word.len() == 8 && read_digits(word, &mut bytes) {
        Some(u32::from_be_bytes(bytes))
    } else {
        None
    }
}

/// The IPv6 address of a word of 32 lower-case hexadecimal digits, or `None`.
pub(crate) fn v6_address(word: &[u8]) -> Option<u128>
    ensures { result ≡ v6_of word.now }
{
    let mut bytes = [0u8; 16];
    if word.len() == 32 && read_digits(word, &mut bytes) {
        Some(u128::from_be_bytes(bytes))
    } else {
        None
    }
}

/// The address of a word of 8 or 32 lower-case hexadecimal digits, or `None` where no address has it.
pub fn address(word: &[u8]) -> Option<Address>
    ensures found { IfSome result (λ a. word.now ≡ address_word a) }
    ensures valid { IfSome result IsAddress }
    ensures none { IfNone result ((a : Address) → IsAddress a → ¬ (word.now ≡ address_word a)) }
    ensures value { result ≡ address_of word.now }
{
    read_address(word)
}

/// The address of 8 digits or of 32, or `None`.
#[tactic(auto, unfolding(crate::specs::Reading::address_of))]
fn read_address(word: &[u8]) -> Option<Address>
    ensures { result ≡ address_of word.now }
{
    match v4_address(word) {
        Some(n) => Some(Address::V4(n)),
        None => v6_address(word).map(Address::V6),
    }
}

/// Appends a blank and an address. After an `Err` a part of them may have been appended.
pub fn push_address(alloc: Global, out: &mut String, address: Address) -> Result<(), OutOfMemory>
    ensures ranges { OnOk result (IsAddress address) }
    ensures text { OnOk result (string_bytes out.new ≡ string_bytes out.old ++ spaced (address_word address ∷ [])) }
    ensures err { OnErr result (Extends (string_bytes out.old) (string_bytes out.new)) }
{
    match address {
        Address::V4(n) => push_v4(alloc, out, n),
        Address::V6(n) => push_v6(alloc, out, n),
    }
}

/// Appends a blank and an IPv4 address.
pub(crate) fn push_v4(alloc: Global, out: &mut String, n: u32) -> Result<(), OutOfMemory>
    ensures text { OnOk result (string_bytes out.new ≡ string_bytes out.old ++ spaced (v4_word n ∷ [])) }
    ensures err { OnErr result (Extends (string_bytes out.old) (string_bytes out.new)) }
{
    let digits = hex::encode(alloc, n.to_be_bytes())?;
    out.push(' ')?;
    out.push_str(digits.as_str())?;
    Ok(())
}

/// Appends a blank and an IPv6 address.
pub(crate) fn push_v6(alloc: Global, out: &mut String, n: u128) -> Result<(), OutOfMemory>
    ensures text { OnOk result (string_bytes out.new ≡ string_bytes out.old ++ spaced (v6_word n ∷ [])) }
    ensures err { OnErr result (Extends (string_bytes out.old) (string_bytes out.new)) }
{
    let digits = hex::encode(alloc, n.to_be_bytes())?;
    out.push(' ')?;
    out.push_str(digits.as_str())?;
    Ok(())
}
