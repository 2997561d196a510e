//! Prefixes as words: `ADDRESS/LENGTH`.

ghost use Rattle.std.specs.Prelude.{◌≡◌, ◌++◌, ◌∷◌, [], OnOk, OnErr, IfSome, IfNone, string_bytes};
ghost use Rattle.grasp_cbor.specs.Extends.{Extends};
ghost use Rattle.grasp_types.specs.Prefix.{AddressBlock, IsPrefix};
ghost use Rattle.grasp_text.specs.Line.{prefix_word};
ghost use Rattle.grasp_text.specs.Reading.{block_of};
ghost use Rattle.grasp_text.specs.Words.{spaced};

use crate::hexes::{push_v6, v6_address};
use crate::numbers::number;
use crate::texts::behind;
use grasp_cbor::OutOfMemory;
use grasp_types::Prefix;
use itoa::Buffer;
use std::alloc::Global;

/// The prefix of a word: 32 lower-case hexadecimal digits, a slash and the length, or `None`.
pub fn prefix(word: &[u8]) -> Option<Prefix>
    ensures found { IfSome result (λ p. word.now ≡ prefix_word p) }
    ensures valid { IfSome result (λ p. IsPrefix p.address p.length) }
    ensures none { IfNone result ((p : AddressBlock) → IsPrefix p.address p.length → ¬ (word.now ≡ prefix_word p)) }
{
    match address_and_length(word) {
        Some((address, length)) => Prefix::of(address, length),
        None => None,
    }
}

/// The address and the length of a word, which may be no prefix, or `None`.
#[tactic(auto, unfolding(crate::specs::Reading::block_of))]
fn address_and_length(word: &[u8]) -> Option<(u128, u8)>
    ensures { result ≡ block_of word.now }
{
    if word.len() < 32 {
        return None;
    }
    let (digits, rest) = word.split_at(32);
    let address = v6_address(digits)?;
    let length = number(behind(b'/', rest)?, 255)?;
    Some((address, length as u8))
}

/// Appends a blank and a prefix. After an `Err` a part of them may have been appended.
#[tactic(auto, using(crate::proofs::PrefixWords::prefix_pushed))]
pub fn push_prefix(alloc: Global, out: &mut String, prefix: Prefix) -> Result<(), OutOfMemory>
    ensures text { OnOk result (string_bytes out.new ≡ string_bytes out.old ++ spaced (prefix_word prefix ∷ [])) }
    ensures err { OnErr result (Extends (string_bytes out.old) (string_bytes out.new)) }
{
    let mut buffer = Buffer::new();
    push_v6(alloc, out, prefix.address())?;
    out.push('/')?;
    out.push_str(buffer.format(prefix.length()))?;
    Ok(())
}
