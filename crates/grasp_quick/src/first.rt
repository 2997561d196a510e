//! The first message of bytes, whatever the width of its heads and values, for what `quick_line` leaves.

ghost use Rattle.std.specs.Prelude.{◌≡◌, ◌<◌, ◌≤◌, length, take, IfSome};
ghost use Rattle.grasp_wire.specs.Wire.{IsWireForm};
ghost use Rattle.grasp_wire.specs.One.{HasTrailing};
ghost use Rattle.grasp_quick.specs.First.{AnswersFront};

use grasp_types::Message;
use grasp_wire::{CutFault, Cutter, OneFault, decode_one};
use std::alloc::Global;

/// The most bytes that are copied for one message.
const PIECE: usize = 4096;

/// The message that begins the bytes, of which it may have `limit`, and how many of them it has; or `None` where all of them are the
/// beginning of an item. Memory is wanted for a whole item alone.
pub fn first_message(
    alloc: Global,
    bytes: &[u8],
    limit: u32,
) -> Result<Option<(Message, usize)>, CutFault>
    requires { 0 < limit }
    ensures { AnswersFront bytes.now limit result }
{
    if let Some(found) = front_message(alloc, bytes, limit) {
        return Ok(Some(found));
    }
    match decode_one(alloc, bytes, limit) {
        Ok(message) => Ok(Some((message, bytes.len()))),
        Err(OneFault::Truncated { .. }) => Ok(None),
        Err(OneFault::Cut(fault)) => Err(fault),
        Err(OneFault::Trailing { at }) => message_before(alloc, bytes, limit, at),
    }
}

/// The message that the first so many bytes are, behind which others follow.
fn message_before(
    alloc: Global,
    bytes: &[u8],
    limit: u32,
    at: u64,
) -> Result<Option<(Message, usize)>, CutFault>
    requires some { 0 < limit }
    requires trailing { HasTrailing bytes.now limit at }
    ensures { AnswersFront bytes.now limit result }
{
    let used = at as usize;
    match decode_one(alloc, &bytes[..used], limit) {
        Ok(message) => Ok(Some((message, used))),
        Err(_) => Err(CutFault::OutOfMemory),
    }
}

/// The message that begins the first bytes, and how many it has; `None` says nothing of them.
fn front_message(alloc: Global, bytes: &[u8], limit: u32) -> Option<(Message, usize)>
    requires { 0 < limit }
    ensures form { IfSome result (λ p. IsWireForm p.0 (take p.1 bytes.now) limit) }
    ensures inside { IfSome result (λ p. p.1 ≤ length bytes.now) }
{
    let (piece, _) = bytes.split_at(bytes.len().min(PIECE));
    let mut cutter = Cutter::new(alloc, limit);
    let Ok(()) = cutter.feed(piece) else {
        return None;
    };
    match cutter.next() {
        Ok(Some(message)) => Some((message, piece.len() - cutter.waiting() as usize)),
        _ => None,
    }
}
