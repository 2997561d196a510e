//! What a response tells, the end of a negotiation, and the parts of a flood (RFC 8990, sections 2.8.5, 2.8.8 and 2.8.11).

ghost use Rattle.std.specs.Prelude.{◌≤◌, ◌∷◌, [], IfSome};
ghost use Rattle.grasp_types.specs.Message.{verdict_item, flood_part_item, IsVerdict, IsFloodPart};
ghost use Rattle.grasp_text.specs.Line.{verdict_words, flood_part_words};
ghost use Rattle.grasp_quick.specs.Packed.{Packs, PacksAnswer, PacksParts};

use crate::packed::front::behind;
use crate::packed::locators::{pack_locator_or_none, pack_locators};
use crate::packed::words::{pack_objective, pack_text};
use crate::room::Room;

/// The most parts of a flood that are packed so.
const MOST: u8 = 16;

/// O_DIVERT, behind its word (RFC 8990, section 2.9.2).
fn pack_divert<'a>(line: &'a [u8], bytes: &mut Room) -> Option<(u8, &'a [u8])>
    ensures answer { IfSome result (λ p. PacksAnswer p.0 line.now p.1.now bytes.old bytes.new) }
    ensures few { IfSome result (λ p. p.0 ≤ 16) }
{
    let rest = behind(b" divert", line)?;
    let at = bytes.len();
    bytes.put(&[0])?;
    bytes.put_head(0, 100)?;
    let (count, rest) = pack_locators(rest, bytes)?;
    bytes.set_array_head(at, 1 + count)?;
    Some((1, rest))
}

/// An answer; answers how many parts of a response it is.
pub(crate) fn pack_answer<'a>(line: &'a [u8], bytes: &mut Room) -> Option<(u8, &'a [u8])>
    ensures answer { IfSome result (λ p. PacksAnswer p.0 line.now p.1.now bytes.old bytes.new) }
    ensures few { IfSome result (λ p. p.0 ≤ 16) }
{
    if let Some(rest) = behind(b" locators", line) {
        return pack_locators(rest, bytes);
    }
    pack_divert(line, bytes)
}

/// O_ACCEPT (RFC 8990, section 2.9.3).
#[inline(always)]
fn pack_accept<'a>(line: &'a [u8], bytes: &mut Room) -> Option<&'a [u8]>
    ensures { IfSome result (λ rest. Packs (λ v. verdict_item v ∷ []) IsVerdict verdict_words line.now rest.now bytes.old bytes.new) }
{
    let rest = behind(b" accept", line)?;
    bytes.put_head(4, 1)?;
    bytes.put_head(0, 101)?;
    Some(rest)
}

/// O_DECLINE with its reason (RFC 8990, section 2.9.4).
fn pack_reason<'a>(line: &'a [u8], bytes: &mut Room) -> Option<&'a [u8]>
    ensures { IfSome result (λ rest. Packs (λ v. verdict_item v ∷ []) IsVerdict verdict_words line.now rest.now bytes.old bytes.new) }
{
    let rest = behind(b" decline", line)?;
    bytes.put_head(4, 2)?;
    bytes.put_head(0, 102)?;
    pack_text(rest, bytes)
}

/// O_DECLINE (RFC 8990, section 2.9.4).
fn pack_decline<'a>(line: &'a [u8], bytes: &mut Room) -> Option<&'a [u8]>
    ensures { IfSome result (λ rest. Packs (λ v. verdict_item v ∷ []) IsVerdict verdict_words line.now rest.now bytes.old bytes.new) }
{
    let rest = behind(b" decline", line)?;
    if has_word(rest) {
        return pack_reason(line, bytes);
    }
    bytes.put_head(4, 1)?;
    bytes.put_head(0, 102)?;
    Some(rest)
}

/// O_ACCEPT or O_DECLINE.
pub(crate) fn pack_verdict<'a>(line: &'a [u8], bytes: &mut Room) -> Option<&'a [u8]>
    ensures { IfSome result (λ rest. Packs (λ v. verdict_item v ∷ []) IsVerdict verdict_words line.now rest.now bytes.old bytes.new) }
{
    if let [_, b'a', ..] = line {
        return pack_accept(line, bytes);
    }
    pack_decline(line, bytes)
}

fn pack_flood_part<'a>(line: &'a [u8], bytes: &mut Room) -> Option<&'a [u8]>
    ensures { IfSome result (λ rest. Packs (λ p. flood_part_item p ∷ []) IsFloodPart flood_part_words line.now rest.now bytes.old bytes.new) }
{
    bytes.put_head(4, 2)?;
    let rest = pack_objective(line, bytes)?;
    pack_locator_or_none(rest, bytes)
}

/// The parts of a flood, one or more, up to the end of the words; answers how many there are.
pub(crate) fn pack_flood_parts<'a>(line: &'a [u8], bytes: &mut Room) -> Option<(u8, &'a [u8])>
    ensures parts { IfSome result (λ p. PacksParts p.0 line.now p.1.now bytes.old bytes.new) }
    ensures some { IfSome result (λ p. 1 ≤ p.0) }
    ensures few { IfSome result (λ p. p.0 ≤ 16) }
{
    let mut rest = pack_flood_part(line, bytes)?;
    let mut count = 1;
    while count < MOST && has_word(rest) {
        rest = pack_flood_part(rest, bytes)?;
        count += 1;
    }
    Some((count, rest))
}

/// Whether a word stands there.
#[inline(always)]
fn has_word(line: &[u8]) -> bool {
    match line {
        [b' ', ..] => true,
        _ => false,
    }
}
