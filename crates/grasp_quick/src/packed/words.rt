//! Numbers, texts, values and objectives of a line.

ghost use Rattle.std.specs.Prelude.{◌≡◌, ◌≤◌, ◌<◌, ◌∷◌, ◌++◌, [], length, take, IfSome, decimal};
ghost use Rattle.std.specs.Str.{IsUtf8};
ghost use Rattle.hex.specs.Hex.{encode_lower};
ghost use Rattle.grasp_cbor.specs.DataItem.{unsigned, text_string};
ghost use Rattle.grasp_types.specs.Objective.{objective_item, IsObjective};
ghost use Rattle.grasp_text.specs.Line.{escaped, text_word, objective_words};
ghost use Rattle.grasp_text.specs.Reading.{is_plain};
ghost use Rattle.grasp_quick.specs.Packed.{Packs, PacksValue, PacksObjective, PacksText, PacksDigits, Unescapes};

use crate::packed::front::{behind, front_number};
use crate::room::Room;
use grasp_cbor::behind_shortest_item;
use grasp_text::{front_bytes, front_plain};

/// A number that is at most so large.
#[inline(always)]
pub(crate) fn pack_number<'a>(most: u32, line: &'a [u8], bytes: &mut Room) -> Option<&'a [u8]>
    ensures { IfSome result (λ rest. Packs (λ n. unsigned n ∷ []) (λ n. n ≤ most) (λ n. decimal n ∷ []) line.now rest.now bytes.old bytes.new) }
{
    let word = behind(b" ", line)?;
    let (number, rest) = front_number(word)?;
    if number > u64::from(most) {
        return None;
    }
    bytes.put_head(0, number)?;
    Some(rest)
}

/// A text.
pub(crate) fn pack_text<'a>(line: &'a [u8], bytes: &mut Room) -> Option<&'a [u8]>
    ensures { IfSome result (λ rest. Packs (λ t. text_string t ∷ []) IsUtf8 (λ t. text_word t ∷ []) line.now rest.now bytes.old bytes.new) }
{
    let escaped = behind(b" '", line)?;
    pack_escaped(escaped, bytes)
}

/// A text behind its apostrophe.
#[inline(always)]
fn pack_escaped<'a>(escaped: &'a [u8], bytes: &mut Room) -> Option<&'a [u8]>
    ensures { IfSome result (λ rest. PacksText escaped.now rest.now bytes.old bytes.new) }
{
    let plain = front_plain(escaped);
    let rest = &escaped[plain..];
    if let [b'%', ..] = rest {
        return pack_unescaped(escaped, bytes);
    }
    bytes.put_string(3, &escaped[..plain])?;
    Some(rest)
}

/// A text of which some bytes are escaped.
#[inline(never)]
fn pack_unescaped<'a>(escaped: &'a [u8], bytes: &mut Room) -> Option<&'a [u8]>
    ensures { IfSome result (λ rest. PacksText escaped.now rest.now bytes.old bytes.new) }
{
    let count = count_unescaped(escaped);
    bytes.put_head(3, count)?;
    let start = bytes.len();
    let rest = put_unescaped(count, escaped, bytes)?;
    let Ok(_) = str::from_utf8(&bytes.bytes()[start..]) else {
        return None;
    };
    Some(rest)
}

/// How many bytes are so escaped at the front.
fn count_unescaped(escaped: &[u8]) -> u64
    ensures { result ≤ length escaped.now }
{
    let mut rest = escaped;
    let mut count = 0;
    while let Some((_, after)) = first_unescaped(rest) {
        rest = after;
        count += 1;
    }
    count
}

/// Appends so many bytes that are so escaped.
fn put_unescaped<'a>(count: u64, escaped: &'a [u8], bytes: &mut Room) -> Option<&'a [u8]>
    ensures { IfSome result (λ rest. Unescapes count escaped.now rest.now bytes.old bytes.new) }
{
    let mut rest = escaped;
    for i in 0..count {
        let (byte, after) = first_unescaped(rest)?;
        bytes.put(&[byte])?;
        rest = after;
    }
    Some(rest)
}

/// The first byte of those that are so escaped, and what stands behind it.
fn first_unescaped(bytes: &[u8]) -> Option<(u8, &[u8])>
    ensures found { IfSome result (λ p. bytes.now ≡ escaped p.0 ++ p.1.now) }
    ensures shorter { IfSome result (λ p. length p.1.now < length bytes.now) }
{
    if let Some(digits) = behind(b"%", bytes) {
        return behind_percent(digits);
    }
    let (first, rest) = bytes.split_first()?;
    if stands_for_itself(*first) {
        Some((*first, rest))
    } else {
        None
    }
}

/// The byte of the two digits behind a percent sign, and what stands behind them.
fn behind_percent(digits: &[u8]) -> Option<(u8, &[u8])>
    ensures found { IfSome result (λ p. 37 ∷ digits.now ≡ escaped p.0 ++ p.1.now) }
    ensures shorter { IfSome result (λ p. length p.1.now ≤ length digits.now) }
{
    let mut out = [0u8; 1];
    if front_bytes(digits, &mut out) == 0 {
        return None;
    }
    let byte = out[0];
    if stands_for_itself(byte) {
        return None;
    }
    Some((byte, &digits[2..]))
}

/// Whether a byte stands for itself in a text's word.
#[inline(always)]
fn stands_for_itself(byte: u8) -> bool
    ensures { result ≡ is_plain byte }
{
    33 <= byte && byte <= 126 && byte != b'%'
}

/// A value, or a dash for none; answers how many parts of an array it is.
#[inline(always)]
pub(crate) fn pack_optional_value<'a>(line: &'a [u8], bytes: &mut Room) -> Option<(u8, &'a [u8])>
    ensures value { IfSome result (λ p. PacksValue p.0 line.now p.1.now bytes.old bytes.new) }
    ensures few { IfSome result (λ p. p.0 ≤ 1) }
{
    if let Some(digits) = behind(b" x", line) {
        let rest = pack_value(digits, bytes)?;
        return Some((1, rest));
    }
    let rest = behind(b" -", line)?;
    Some((0, rest))
}

/// A value behind its first letter.
fn pack_value<'a>(digits: &'a [u8], bytes: &mut Room) -> Option<&'a [u8]>
    ensures { IfSome result (λ rest. PacksDigits digits.now rest.now bytes.old bytes.new) }
{
    let start = bytes.len();
    let count = bytes.put_front_bytes(digits);
    let behind = behind_shortest_item(&bytes.bytes()[start..], 13)?;
    if !behind.is_empty() {
        return None;
    }
    Some(&digits[2 * count..])
}

/// An objective.
pub(crate) fn pack_objective<'a>(line: &'a [u8], bytes: &mut Room) -> Option<&'a [u8]>
    ensures { IfSome result (λ rest. Packs (λ o. objective_item o ∷ []) IsObjective objective_words line.now rest.now bytes.old bytes.new) }
{
    let rest = behind(b" obj", line)?;
    let at = bytes.len();
    bytes.put(&[0])?;
    let rest = pack_text(rest, bytes)?;
    let rest = pack_number(15, rest, bytes)?;
    let rest = pack_number(255, rest, bytes)?;
    let (more, rest) = pack_optional_value(rest, bytes)?;
    bytes.set_array_head(at, 3 + more)?;
    Some(rest)
}

/// The last objective, or nothing; answers how many parts of an array it is.
pub(crate) fn pack_last_objective<'a>(line: &'a [u8], bytes: &mut Room) -> Option<(u8, &'a [u8])>
    ensures objective { IfSome result (λ p. PacksObjective p.0 line.now p.1.now bytes.old bytes.new) }
    ensures few { IfSome result (λ p. p.0 ≤ 1) }
{
    if let [b' ', ..] = line {
        let rest = pack_objective(line, bytes)?;
        return Some((1, rest));
    }
    Some((0, line))
}
