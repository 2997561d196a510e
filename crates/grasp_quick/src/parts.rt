//! What a response tells, the end of a negotiation, and the parts of a flood (RFC 8990, sections 2.8.5, 2.8.8 and 2.8.11).

ghost use Rattle.std.specs.Prelude.{◌+◌, ℕ, List, IfSome};
ghost use Rattle.grasp_cbor.specs.DataItem.{unsigned};
ghost use Rattle.grasp_cbor.specs.Leading.{Leads, LeadsArray};
ghost use Rattle.grasp_types.specs.Message.{verdict_item, flood_part_item, IsVerdict, IsFloodPart};
ghost use Rattle.grasp_text.specs.Line.{verdict_words, flood_part_words, all_flood_part_words};
ghost use Rattle.grasp_quick.specs.Spelled.{Spells, SpellsKind, SpellsMany, SpellsAnswer};

use crate::locators::{spell_locator_or_empty, spell_locators};
use crate::room::Room;
use crate::shown::{spell_objective, spell_text};
use grasp_cbor::{read_array_head, read_unsigned};

/// How many locators an O_DIVERT has of which the head and the number begin the bytes, and what follows (RFC 8990, section 2.9.2).
fn read_divert_head(bytes: &[u8]) -> Option<(u64, &[u8])>
    ensures { IfSome result (λ p. (middle : List ℕ) × LeadsArray (p.0 + 1) bytes.now middle × Leads (unsigned 100) middle p.1.now) }
{
    let (count, rest) = read_array_head(bytes)?;
    let (kind, rest) = read_unsigned(rest)?;
    if kind != 100 {
        return None;
    }
    match count.checked_sub(1) {
        Some(left) => Some((left, rest)),
        None => None,
    }
}

/// An answer of so many parts at most; answers how many there are.
pub(crate) fn spell_answer<'a>(
    most: u64,
    bytes: &'a [u8],
    line: &mut Room,
) -> Option<(u64, &'a [u8])>
    ensures { IfSome result (λ p. SpellsAnswer p.0 bytes.now p.1.now line.old line.new) }
{
    match read_divert_head(bytes) {
        None => {
            line.put(b" locators")?;
            spell_locators(most, bytes, line)
        }
        Some((count, behind)) => {
            line.put(b" divert")?;
            let (used, rest) = spell_locators(count, behind, line)?;
            if used == count { Some((1, rest)) } else { None }
        }
    }
}

/// O_ACCEPT, behind the head of its array and its number (RFC 8990, section 2.9.3).
fn spell_accept<'a>(count: u64, bytes: &'a [u8], line: &mut Room) -> Option<&'a [u8]>
    ensures { IfSome result (λ rest. SpellsKind count 101 verdict_item IsVerdict verdict_words bytes.now rest.now line.old line.new) }
{
    if count != 1 {
        return None;
    }
    line.put(b" accept")?;
    Some(bytes)
}

/// O_DECLINE, behind the head of its array and its number (RFC 8990, section 2.9.4).
fn spell_decline<'a>(count: u64, bytes: &'a [u8], line: &mut Room) -> Option<&'a [u8]>
    ensures { IfSome result (λ rest. SpellsKind count 102 verdict_item IsVerdict verdict_words bytes.now rest.now line.old line.new) }
{
    line.put(b" decline")?;
    if count == 1 {
        return Some(bytes);
    }
    if count != 2 {
        return None;
    }
    spell_text(bytes, line)
}

fn spell_verdict_of<'a>(count: u64, kind: u64, bytes: &'a [u8], line: &mut Room) -> Option<&'a [u8]>
    ensures { IfSome result (λ rest. SpellsKind count kind verdict_item IsVerdict verdict_words bytes.now rest.now line.old line.new) }
{
    match kind {
        101 => spell_accept(count, bytes, line),
        102 => spell_decline(count, bytes, line),
        _ => None,
    }
}

/// O_ACCEPT or O_DECLINE.
pub(crate) fn spell_verdict<'a>(bytes: &'a [u8], line: &mut Room) -> Option<&'a [u8]>
    ensures { IfSome result (λ rest. Spells verdict_item IsVerdict verdict_words bytes.now rest.now line.old line.new) }
{
    let (count, rest) = read_array_head(bytes)?;
    let (kind, rest) = read_unsigned(rest)?;
    spell_verdict_of(count, kind, rest, line)
}

fn spell_flood_part<'a>(bytes: &'a [u8], line: &mut Room) -> Option<&'a [u8]>
    ensures { IfSome result (λ rest. Spells flood_part_item IsFloodPart flood_part_words bytes.now rest.now line.old line.new) }
{
    let (count, rest) = read_array_head(bytes)?;
    if count != 2 {
        return None;
    }
    let rest = spell_objective(rest, line)?;
    spell_locator_or_empty(rest, line)
}

/// So many parts of a flood.
pub(crate) fn spell_flood_parts<'a>(
    count: u64,
    bytes: &'a [u8],
    line: &mut Room,
) -> Option<&'a [u8]>
    ensures { IfSome result (λ rest. SpellsMany flood_part_item IsFloodPart all_flood_part_words count bytes.now rest.now line.old line.new) }
{
    let mut rest = bytes;
    for i in 0..count {
        rest = spell_flood_part(rest, line)?;
    }
    Some(rest)
}
