//! Writing messages in their shortest encoding (RFC 8949, section 4.2.1).

ghost use Rattle.std.specs.Prelude.{◌≡◌, ◌<◌, ◌≤◌, [], ◌∷◌, ◌++◌, ◌↔◌, Some, length, Err, IsTrue, OnOk, OnErr, IfOk};
ghost use Rattle.grasp_cbor.specs.Shortest.{shortest};
ghost use Rattle.grasp_types.specs.Message.{item_of};
ghost use Rattle.grasp_wire.specs.Laws.{ShortestIsWireForm};
ghost use Rattle.grasp_wire.specs.Wire.{IsWireForm};
ghost use Rattle.grasp_wire.specs.declared.fault.EncodeFault.TheVariants.{TooLong};

use crate::EncodeFault;
use crate::writing::message::{put_end, put_flood_of_one, put_invalid, put_message, put_step};
use crate::writing::put::Room;
use grasp_cbor::{Chars, Octets};
use grasp_types::{Address, Flags, FloodPart, Message, Value, Verdict};
use std::alloc::Global;

/// The shortest encoding of a message that has at most `limit` bytes is a wire form of it, for every limit below
/// 2^64.
#[tactic(auto, using(crate::proofs::EncodableItems::shortest_is_form))]
pub fn shortest_is_wire_form()
    ensures { ShortestIsWireForm }
{}

/// Whether the shortest encoding of the message has at most `limit` bytes. It takes no memory.
pub fn fits(message: &Message, limit: u32) -> bool
    ensures { IsTrue result ↔ (length (shortest (item_of message.now)) ≤ limit) }
{
    let mut room = Room::of(limit);
    put_message(message, &mut room).is_ok()
}

/// As `fits`, of a step of a negotiation whose objective has these parts (RFC 8990, section 2.8.7).
pub fn step_fits(
    session: u32,
    name: &Chars,
    flags: Flags,
    loops: u8,
    value: &Value,
    limit: u32,
) -> bool
    ensures { IsTrue result ↔ (length (shortest (item_of (Message.Negotiate session
        (record { name = name.now; flags = flags; loops = loops; value = Some value.now })))) ≤ limit) }
{
    let mut room = Room::of(limit);
    put_step(session, name, flags, loops, value, &mut room).is_ok()
}

/// As `fits`, of the end of a negotiation (RFC 8990, section 2.8.8).
pub fn end_fits(session: u32, verdict: &Verdict, limit: u32) -> bool
    ensures { IsTrue result ↔ (length (shortest (item_of (Message.End session verdict.now))) ≤ limit) }
{
    let mut room = Room::of(limit);
    put_end(session, verdict, &mut room).is_ok()
}

/// As `fits`, of a message that ends a session as invalid (RFC 8990, section 2.8.12).
pub fn invalid_fits(session: u32, detail: &Option<Value>, limit: u32) -> bool
    ensures { IsTrue result ↔ (length (shortest (item_of (Message.Invalid session detail.now))) ≤ limit) }
{
    let mut room = Room::of(limit);
    put_invalid(session, detail, &mut room).is_ok()
}

/// As `fits`, of a flood of one part (RFC 8990, section 2.8.11).
pub fn flood_fits(session: u32, initiator: &Address, ttl: u32, part: &FloodPart, limit: u32) -> bool
    ensures { IsTrue result ↔ (length (shortest (item_of (Message.Flood session initiator.now ttl (part.now ∷ [])))) ≤ limit) }
{
    let mut room = Room::of(limit);
    put_flood_of_one(session, initiator, ttl, part, &mut room).is_ok()
}

/// Appends the shortest encoding of the message, where it has at most `limit` bytes. After an `Err` the vector is as
/// before.
pub fn encode(message: &Message, limit: u32, out: &mut Vec<u8>) -> Result<(), EncodeFault>
    ensures ok { OnOk result (out.new.items ≡ out.old.items ++ shortest (item_of message.now)) }
    ensures form { OnOk result (IsWireForm message.now (shortest (item_of message.now)) limit) }
    ensures too_long { (result ≡ Err TooLong) ↔ (limit < length (shortest (item_of message.now))) }
    ensures err { OnErr result (out.new.items ≡ out.old.items) }
{
    let len = out.len();
    if let Ok(()) = put_message(message, out) {
        if (out.len() - len) as u64 <= u64::from(limit) {
            return Ok(());
        }
    }
    out.truncate(len);
    if fits(message, limit) {
        Err(EncodeFault::OutOfMemory)
    } else {
        Err(EncodeFault::TooLong)
    }
}

/// The shortest encoding of the message, where it has at most `limit` bytes.
pub fn encoded(alloc: Global, message: &Message, limit: u32) -> Result<Octets, EncodeFault>
    ensures ok { IfOk result (λ octets. octets ≡ shortest (item_of message.now)) }
    ensures form { OnOk result (IsWireForm message.now (shortest (item_of message.now)) limit) }
    ensures too_long { (result ≡ Err TooLong) ↔ (limit < length (shortest (item_of message.now))) }
{
    let mut out = Vec::new(alloc);
    match encode(message, limit, &mut out) {
        Ok(()) => Ok(Octets::from_vec(out)),
        Err(fault) => Err(fault),
    }
}
