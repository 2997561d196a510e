//! Numbers and texts.

ghost use Rattle.std.specs.Prelude.{◌<◌, ◌^◌, IfSome};
ghost use Rattle.std.specs.Str.{IsUtf8};
ghost use Rattle.grasp_cbor.specs.DataItem.{unsigned, text_string};
ghost use Rattle.grasp_cbor.specs.Leading.{Leads};

use grasp_cbor::{Chars, read_text_string, read_unsigned};
use std::alloc::Global;

/// A number of 8 bits.
pub(crate) fn read_u8(bytes: &[u8]) -> Option<(u8, &[u8])>
    ensures leads { IfSome result (λ p. Leads (unsigned p.0) bytes.now p.1.now) }
    ensures range { IfSome result (λ p. p.0 < 2 ^ 8) }
{
    let (number, rest) = read_unsigned(bytes)?;
    match u8::try_from(number) {
        Ok(number) => Some((number, rest)),
        Err(_) => None,
    }
}

/// A number of 16 bits.
pub(crate) fn read_port(bytes: &[u8]) -> Option<(u16, &[u8])>
    ensures leads { IfSome result (λ p. Leads (unsigned p.0) bytes.now p.1.now) }
    ensures range { IfSome result (λ p. p.0 < 2 ^ 16) }
{
    let (number, rest) = read_unsigned(bytes)?;
    match u16::try_from(number) {
        Ok(number) => Some((number, rest)),
        Err(_) => None,
    }
}

/// A number of 32 bits.
pub(crate) fn read_u32(bytes: &[u8]) -> Option<(u32, &[u8])>
    ensures leads { IfSome result (λ p. Leads (unsigned p.0) bytes.now p.1.now) }
    ensures range { IfSome result (λ p. p.0 < 2 ^ 32) }
{
    let (number, rest) = read_unsigned(bytes)?;
    match u32::try_from(number) {
        Ok(number) => Some((number, rest)),
        Err(_) => None,
    }
}

/// A text.
#[tactic(auto, using(crate::proofs::Straight::text_leads))]
pub(crate) fn read_text(alloc: Global, bytes: &[u8]) -> Option<(Chars, &[u8])>
    ensures leads { IfSome result (λ p. Leads (text_string p.0) bytes.now p.1.now) }
    ensures utf8 { IfSome result (λ p. IsUtf8 p.0) }
{
    let (text, rest) = read_text_string(bytes)?;
    match Chars::of(alloc, text) {
        Ok(chars) => Some((chars, rest)),
        Err(_) => None,
    }
}
