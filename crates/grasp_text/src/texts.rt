//! Texts as words: an apostrophe, and the text's bytes with some of them escaped.

ghost use Rattle.std.specs.Prelude.{◌≡◌, true, ◌<◌, ◌≤◌, take, List, ℕ, length, ◌++◌, ◌∷◌, [], OnOk, OnErr, IfOk, IfSome, IfNone, option_map};
ghost use Rattle.std.specs.Prelude.{slice_index, string_bytes};
ghost use Rattle.std.specs.Str.{IsUtf8};
ghost use Rattle.hex.specs.Hex.{lower_digits};
ghost use Rattle.grasp_cbor.specs.Extends.{Extends};
ghost use Rattle.grasp_text.specs.Line.{text_word, escaped, all_escaped};
ghost use Rattle.grasp_text.specs.Reading.{text_of, as_text, unescaped, first_unescaped, behind_percent, behind_byte, is_plain, ArePlain, byte_of};
ghost use Rattle.grasp_text.specs.Words.{spaced};

use crate::digits::digit_value;
use grasp_cbor::{Chars, OutOfMemory};
use std::alloc::Global;

/// Whether a byte stands for itself in a text's word.
fn stands_for_itself(byte: u8) -> bool
    ensures { result ≡ is_plain byte }
{
    33 <= byte && byte <= 126 && byte != b'%'
}

/// Whether each of the bytes stands for itself.
fn stand_for_themselves(bytes: &[u8]) -> bool
    ensures { result ≡ true → ArePlain bytes.now }
{
    for byte in bytes {
        if !stands_for_itself(*byte) {
            return false;
        }
    }
    true
}

/// How many bytes stand for themselves at the front.
pub fn front_plain(bytes: &[u8]) -> usize
    ensures inside { result ≤ length bytes.now }
    ensures plain { ArePlain (take result bytes.now) }
{
    let mut end = 0;
    while end < bytes.len() && stands_for_itself(bytes[end]) {
        end += 1;
    }
    end
}

/// The byte of the two digits behind a percent sign, unless it stands for itself.
#[tactic(auto, unfolding(crate::specs::Reading::byte_of))]
fn escaped_byte(high: u8, low: u8) -> Option<u8>
    ensures { result ≡ byte_of high low }
{
    let high = digit_value(high)?;
    let low = digit_value(low)?;
    let byte = high * 16 + low;
    if stands_for_itself(byte) {
        None
    } else {
        Some(byte)
    }
}

/// The first byte of those that are so escaped, and what stands behind it, or `None`.
#[tactic(auto, unfolding(crate::specs::Reading::first_unescaped))]
fn first_byte(escaped: &[u8]) -> Option<(u8, &[u8])>
    ensures value { option_map (λ x. (x.0, x.1.now)) result ≡ first_unescaped escaped.now }
    ensures shorter { IfSome result (λ x. length x.1.now < length escaped.now) }
{
    match escaped {
        [] => None,
        [first, rest @ ..] => {
            if stands_for_itself(*first) {
                Some((*first, rest))
            } else if *first == b'%' {
                behind_percent(rest)
            } else {
                None
            }
        }
    }
}

/// The byte of the first two digits, and what stands behind them, or `None`.
fn behind_percent(digits: &[u8]) -> Option<(u8, &[u8])>
    ensures value { option_map (λ x. (x.0, x.1.now)) result ≡ behind_percent digits.now }
    ensures shorter { IfSome result (λ x. length x.1.now < length digits.now) }
{
    match digits {
        [high, low, rest @ ..] => match escaped_byte(*high, *low) {
            Some(byte) => Some((byte, rest)),
            None => None,
        },
        _ => None,
    }
}

/// The bytes that are so escaped, or `None`.
fn unescape(alloc: Global, escaped: &[u8]) -> Result<Option<Vec<u8>>, OutOfMemory>
    ensures { IfOk result (λ o. option_map (λ v. v.items) o ≡ unescaped escaped.now) }
{
    let mut bytes = Vec::with_capacity(alloc, escaped.len())?;
    let mut rest = escaped;
    while !rest.is_empty() {
        let Some((byte, after)) = first_byte(rest) else {
            return Ok(None);
        };
        bytes.push(byte)?;
        rest = after;
    }
    Ok(Some(bytes))
}

/// What stands behind this first byte, or `None`.
pub(crate) fn behind(first: u8, word: &[u8]) -> Option<&[u8]>
    ensures { option_map (λ s. s.now) result ≡ behind_byte first word.now }
{
    match word {
        [] => None,
        [byte, rest @ ..] => { if *byte == first { Some(rest) } else { None } }
    }
}

/// The text of a word, or `None` where no text has it.
pub fn text(alloc: Global, word: &[u8]) -> Result<Option<Chars>, OutOfMemory>
    ensures found { IfOk result (λ o. IfSome o (λ t. word.now ≡ text_word t)) }
    ensures valid { IfOk result (λ o. IfSome o IsUtf8) }
    ensures none { IfOk result (λ o. IfNone o ((t : List ℕ) → IsUtf8 t → ¬ (word.now ≡ text_word t))) }
    ensures value { IfOk result (λ o. o ≡ text_of word.now) }
{
    read_text(alloc, word)
}

/// The text behind the apostrophe, or `None`.
#[tactic(auto, unfolding(crate::specs::Reading::text_of))]
fn read_text(alloc: Global, word: &[u8]) -> Result<Option<Chars>, OutOfMemory>
    ensures { IfOk result (λ o. o ≡ text_of word.now) }
{
    match behind(b'\'', word) {
        Some(escaped) => text_of_escaped(alloc, escaped),
        None => Ok(None),
    }
}

/// The text that is so escaped, or `None`.
fn text_of_escaped(alloc: Global, escaped: &[u8]) -> Result<Option<Chars>, OutOfMemory>
    ensures { IfOk result (λ o. o ≡ as_text (unescaped escaped.now)) }
{
    match unescape(alloc, escaped)? {
        Some(bytes) => Ok(Chars::from_vec(bytes)),
        None => Ok(None),
    }
}

const DIGITS: [u8; 16] = *b"0123456789abcdef";

/// Appends a hexadecimal digit.
#[tactic(auto, using(crate::proofs::TextWords::lower_digit_small))]
fn push_digit(out: &mut String, value: u8) -> Result<(), OutOfMemory>
    requires { value < 16 }
    ensures text { OnOk result (string_bytes out.new ≡ string_bytes out.old ++ slice_index lower_digits value ∷ []) }
    ensures err { OnErr result (Extends (string_bytes out.old) (string_bytes out.new)) }
{
    out.push(char::from(DIGITS[value as usize]))?;
    Ok(())
}

/// Appends a byte of a text, escaped where it has to be.
fn push_escaped(out: &mut String, byte: u8) -> Result<(), OutOfMemory>
    ensures text { OnOk result (string_bytes out.new ≡ string_bytes out.old ++ escaped byte) }
    ensures err { OnErr result (Extends (string_bytes out.old) (string_bytes out.new)) }
{
    if stands_for_itself(byte) {
        out.push(char::from(byte))?;
    } else {
        out.push('%')?;
        push_digit(out, byte / 16)?;
        push_digit(out, byte % 16)?;
    }
    Ok(())
}

/// Appends bytes of a text, escaped where they have to be.
fn push_all_escaped(out: &mut String, bytes: &[u8]) -> Result<(), OutOfMemory>
    ensures text { OnOk result (string_bytes out.new ≡ string_bytes out.old ++ all_escaped bytes.now) }
    ensures err { OnErr result (Extends (string_bytes out.old) (string_bytes out.new)) }
{
    for byte in bytes {
        push_escaped(out, *byte)?;
    }
    Ok(())
}

/// Appends a blank and a text. After an `Err` a part of them may have been appended.
pub fn push_text(out: &mut String, text: &Chars) -> Result<(), OutOfMemory>
    ensures utf8 { OnOk result (IsUtf8 text.now) }
    ensures text { OnOk result (string_bytes out.new ≡ string_bytes out.old ++ spaced (text_word text.now ∷ [])) }
    ensures err { OnErr result (Extends (string_bytes out.old) (string_bytes out.new)) }
{
    out.push_str(" '")?;
    if stand_for_themselves(text.bytes()) {
        out.push_str(text.text())?;
        Ok(())
    } else {
        push_all_escaped(out, text.bytes())
    }
}
