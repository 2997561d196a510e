//! Lines of each kind of message (RFC 8990, section 2.8).

ghost use Rattle.std.specs.Prelude.{IfSome};
ghost use Rattle.grasp_quick.specs.Packed.{PacksLine, PacksTold};

use crate::packed::front::behind;
use crate::packed::parts::{pack_answer, pack_flood_parts, pack_verdict};
use crate::packed::places::pack_address;
use crate::packed::words::{pack_last_objective, pack_number, pack_objective, pack_optional_value};
use crate::room::Room;

/// The greatest number of 32 bits.
const MOST: u32 = u32::MAX;

/// M_NOOP.
pub(crate) fn pack_noop<'a>(line: &'a [u8], bytes: &mut Room) -> Option<&'a [u8]>
    ensures { IfSome result (λ rest. PacksLine line.now rest.now bytes.old bytes.new) }
{
    let rest = behind(b"noop", line)?;
    bytes.put_head(4, 1)?;
    bytes.put_head(0, 0)?;
    Some(rest)
}

/// M_DISCOVERY.
pub(crate) fn pack_discovery<'a>(line: &'a [u8], bytes: &mut Room) -> Option<&'a [u8]>
    ensures { IfSome result (λ rest. PacksLine line.now rest.now bytes.old bytes.new) }
{
    let rest = behind(b"discovery", line)?;
    bytes.put_head(4, 4)?;
    bytes.put_head(0, 1)?;
    let rest = pack_number(MOST, rest, bytes)?;
    let rest = pack_address(rest, bytes)?;
    pack_objective(rest, bytes)
}

/// M_RESPONSE.
pub(crate) fn pack_response<'a>(line: &'a [u8], bytes: &mut Room) -> Option<&'a [u8]>
    ensures { IfSome result (λ rest. PacksLine line.now rest.now bytes.old bytes.new) }
{
    let rest = behind(b"response", line)?;
    let at = bytes.len();
    bytes.put(&[0])?;
    bytes.put_head(0, 2)?;
    let rest = pack_number(MOST, rest, bytes)?;
    let rest = pack_address(rest, bytes)?;
    let rest = pack_number(MOST, rest, bytes)?;
    let (answers, rest) = pack_answer(rest, bytes)?;
    let (objectives, rest) = pack_last_objective(rest, bytes)?;
    bytes.set_array_head(at, 4 + answers + objectives)?;
    Some(rest)
}

/// The session and the objective of a message of this kind that has nothing else.
#[inline(always)]
fn pack_told<'a>(kind: u64, line: &'a [u8], bytes: &mut Room) -> Option<&'a [u8]>
    ensures { IfSome result (λ rest. PacksTold kind line.now rest.now bytes.old bytes.new) }
{
    bytes.put_head(4, 3)?;
    bytes.put_head(0, kind)?;
    let rest = pack_number(MOST, line, bytes)?;
    pack_objective(rest, bytes)
}

/// M_REQ_NEG.
pub(crate) fn pack_req_neg<'a>(line: &'a [u8], bytes: &mut Room) -> Option<&'a [u8]>
    ensures { IfSome result (λ rest. PacksLine line.now rest.now bytes.old bytes.new) }
{
    let rest = behind(b"request-neg", line)?;
    pack_told(3, rest, bytes)
}

/// M_REQ_SYN.
pub(crate) fn pack_req_syn<'a>(line: &'a [u8], bytes: &mut Room) -> Option<&'a [u8]>
    ensures { IfSome result (λ rest. PacksLine line.now rest.now bytes.old bytes.new) }
{
    let rest = behind(b"request-syn", line)?;
    pack_told(4, rest, bytes)
}

/// M_NEGOTIATE.
pub(crate) fn pack_negotiate<'a>(line: &'a [u8], bytes: &mut Room) -> Option<&'a [u8]>
    ensures { IfSome result (λ rest. PacksLine line.now rest.now bytes.old bytes.new) }
{
    let rest = behind(b"negotiate", line)?;
    pack_told(5, rest, bytes)
}

/// M_SYNCH.
pub(crate) fn pack_synch<'a>(line: &'a [u8], bytes: &mut Room) -> Option<&'a [u8]>
    ensures { IfSome result (λ rest. PacksLine line.now rest.now bytes.old bytes.new) }
{
    let rest = behind(b"synch", line)?;
    pack_told(8, rest, bytes)
}

/// M_END.
pub(crate) fn pack_end<'a>(line: &'a [u8], bytes: &mut Room) -> Option<&'a [u8]>
    ensures { IfSome result (λ rest. PacksLine line.now rest.now bytes.old bytes.new) }
{
    let rest = behind(b"end", line)?;
    bytes.put_head(4, 3)?;
    bytes.put_head(0, 6)?;
    let rest = pack_number(MOST, rest, bytes)?;
    pack_verdict(rest, bytes)
}

/// M_WAIT.
pub(crate) fn pack_wait<'a>(line: &'a [u8], bytes: &mut Room) -> Option<&'a [u8]>
    ensures { IfSome result (λ rest. PacksLine line.now rest.now bytes.old bytes.new) }
{
    let rest = behind(b"wait", line)?;
    bytes.put_head(4, 3)?;
    bytes.put_head(0, 7)?;
    let rest = pack_number(MOST, rest, bytes)?;
    pack_number(MOST, rest, bytes)
}

/// M_FLOOD.
pub(crate) fn pack_flood<'a>(line: &'a [u8], bytes: &mut Room) -> Option<&'a [u8]>
    ensures { IfSome result (λ rest. PacksLine line.now rest.now bytes.old bytes.new) }
{
    let rest = behind(b"flood", line)?;
    let at = bytes.len();
    bytes.put(&[0])?;
    bytes.put_head(0, 9)?;
    let rest = pack_number(MOST, rest, bytes)?;
    let rest = pack_address(rest, bytes)?;
    let rest = pack_number(MOST, rest, bytes)?;
    let (parts, rest) = pack_flood_parts(rest, bytes)?;
    bytes.set_array_head(at, 4 + parts)?;
    Some(rest)
}

/// M_INVALID.
pub(crate) fn pack_invalid<'a>(line: &'a [u8], bytes: &mut Room) -> Option<&'a [u8]>
    ensures { IfSome result (λ rest. PacksLine line.now rest.now bytes.old bytes.new) }
{
    let rest = behind(b"invalid", line)?;
    let at = bytes.len();
    bytes.put(&[0])?;
    bytes.put_head(0, 99)?;
    let rest = pack_number(MOST, rest, bytes)?;
    let (more, rest) = pack_optional_value(rest, bytes)?;
    bytes.set_array_head(at, 2 + more)?;
    Some(rest)
}
