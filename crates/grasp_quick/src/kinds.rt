//! Messages of each kind, behind the head of an array of so many parts and the number of the kind (RFC 8990, section 2.8).

ghost use Rattle.std.specs.Prelude.{IfSome};
ghost use Rattle.grasp_quick.specs.Spelled.{EndsLine, SpellsTold};

use crate::parts::{spell_answer, spell_flood_parts, spell_verdict};
use crate::places::spell_address;
use crate::room::Room;
use crate::shown::{below, spell_last_objective, spell_last_value, spell_objective};

/// The greatest number of 32 bits.
const MOST: u32 = u32::MAX;

/// A message of this kind.
pub(crate) fn spell_kind<'a>(
    count: u64,
    kind: u64,
    bytes: &'a [u8],
    line: &mut Room,
) -> Option<&'a [u8]>
    ensures { IfSome result (λ rest. EndsLine count kind bytes.now rest.now line.old line.new) }
{
    match kind {
        0 => spell_noop(count, bytes, line),
        1 => spell_discovery(count, bytes, line),
        2 => spell_response(count, bytes, line),
        3 => spell_req_neg(count, bytes, line),
        4 => spell_req_syn(count, bytes, line),
        5 => spell_negotiate(count, bytes, line),
        6 => spell_end(count, bytes, line),
        7 => spell_wait(count, bytes, line),
        8 => spell_synch(count, bytes, line),
        9 => spell_flood(count, bytes, line),
        99 => spell_invalid(count, bytes, line),
        _ => None,
    }
}

/// M_NOOP.
fn spell_noop<'a>(count: u64, bytes: &'a [u8], line: &mut Room) -> Option<&'a [u8]>
    ensures { IfSome result (λ rest. EndsLine count 0 bytes.now rest.now line.old line.new) }
{
    if count != 1 {
        return None;
    }
    line.put(b"noop")?;
    Some(bytes)
}

/// M_DISCOVERY.
fn spell_discovery<'a>(count: u64, bytes: &'a [u8], line: &mut Room) -> Option<&'a [u8]>
    ensures { IfSome result (λ rest. EndsLine count 1 bytes.now rest.now line.old line.new) }
{
    if count != 4 {
        return None;
    }
    line.put(b"discovery")?;
    let rest = below(MOST, bytes, line)?;
    let rest = spell_address(rest, line)?;
    spell_objective(rest, line)
}

/// M_RESPONSE.
fn spell_response<'a>(count: u64, bytes: &'a [u8], line: &mut Room) -> Option<&'a [u8]>
    ensures { IfSome result (λ rest. EndsLine count 2 bytes.now rest.now line.old line.new) }
{
    if count < 4 {
        return None;
    }
    line.put(b"response")?;
    let rest = below(MOST, bytes, line)?;
    let rest = spell_address(rest, line)?;
    let rest = below(MOST, rest, line)?;
    let (used, rest) = spell_answer(count - 4, rest, line)?;
    spell_last_objective(count - 4, used, rest, line)
}

/// The session and the objective of a message that has nothing else.
fn spell_told<'a>(count: u64, bytes: &'a [u8], line: &mut Room) -> Option<&'a [u8]>
    ensures { IfSome result (λ rest. SpellsTold count bytes.now rest.now line.old line.new) }
{
    if count != 3 {
        return None;
    }
    let rest = below(MOST, bytes, line)?;
    spell_objective(rest, line)
}

/// M_REQ_NEG.
fn spell_req_neg<'a>(count: u64, bytes: &'a [u8], line: &mut Room) -> Option<&'a [u8]>
    ensures { IfSome result (λ rest. EndsLine count 3 bytes.now rest.now line.old line.new) }
{
    line.put(b"request-neg")?;
    spell_told(count, bytes, line)
}

/// M_REQ_SYN.
fn spell_req_syn<'a>(count: u64, bytes: &'a [u8], line: &mut Room) -> Option<&'a [u8]>
    ensures { IfSome result (λ rest. EndsLine count 4 bytes.now rest.now line.old line.new) }
{
    line.put(b"request-syn")?;
    spell_told(count, bytes, line)
}

/// M_NEGOTIATE.
fn spell_negotiate<'a>(count: u64, bytes: &'a [u8], line: &mut Room) -> Option<&'a [u8]>
    ensures { IfSome result (λ rest. EndsLine count 5 bytes.now rest.now line.old line.new) }
{
    line.put(b"negotiate")?;
    spell_told(count, bytes, line)
}

/// M_SYNCH.
fn spell_synch<'a>(count: u64, bytes: &'a [u8], line: &mut Room) -> Option<&'a [u8]>
    ensures { IfSome result (λ rest. EndsLine count 8 bytes.now rest.now line.old line.new) }
{
    line.put(b"synch")?;
    spell_told(count, bytes, line)
}

/// M_END.
fn spell_end<'a>(count: u64, bytes: &'a [u8], line: &mut Room) -> Option<&'a [u8]>
    ensures { IfSome result (λ rest. EndsLine count 6 bytes.now rest.now line.old line.new) }
{
    if count != 3 {
        return None;
    }
    line.put(b"end")?;
    let rest = below(MOST, bytes, line)?;
    spell_verdict(rest, line)
}

/// M_WAIT.
fn spell_wait<'a>(count: u64, bytes: &'a [u8], line: &mut Room) -> Option<&'a [u8]>
    ensures { IfSome result (λ rest. EndsLine count 7 bytes.now rest.now line.old line.new) }
{
    if count != 3 {
        return None;
    }
    line.put(b"wait")?;
    let rest = below(MOST, bytes, line)?;
    below(MOST, rest, line)
}

/// M_FLOOD.
fn spell_flood<'a>(count: u64, bytes: &'a [u8], line: &mut Room) -> Option<&'a [u8]>
    ensures { IfSome result (λ rest. EndsLine count 9 bytes.now rest.now line.old line.new) }
{
    if count < 5 {
        return None;
    }
    line.put(b"flood")?;
    let rest = below(MOST, bytes, line)?;
    let rest = spell_address(rest, line)?;
    let rest = below(MOST, rest, line)?;
    spell_flood_parts(count - 4, rest, line)
}

/// M_INVALID.
fn spell_invalid<'a>(count: u64, bytes: &'a [u8], line: &mut Room) -> Option<&'a [u8]>
    ensures { IfSome result (λ rest. EndsLine count 99 bytes.now rest.now line.old line.new) }
{
    line.put(b"invalid")?;
    let rest = below(MOST, bytes, line)?;
    spell_last_value(count, 2, rest, line)
}
