//! Messages of each kind, behind the head of an array of so many parts and the number of the kind (RFC 8990, section 2.8).

ghost use Rattle.std.specs.Prelude.{◌≡◌, ◌<◌, ◌^◌, [], ◌∷◌, IfSome};
ghost use Rattle.grasp_cbor.specs.DataItem.{unsigned};
ghost use Rattle.grasp_types.specs.Message.{item_of, IsMessage};
ghost use Rattle.grasp_types.specs.Objective.{objective_item, IsObjective};
ghost use Rattle.grasp_wire.specs.Direct.{LeadAll, EndsKind};

use crate::direct::address::read_address;
use crate::direct::answer::{parts_of_answer, read_answer};
use crate::direct::flood::read_flood_parts;
use crate::direct::objective::{read_last_objective, read_last_value, read_objective};
use crate::direct::scalars::read_u32;
use crate::direct::verdict::read_verdict;
use grasp_types::{Message, Objective};
use std::alloc::Global;

/// A message of this kind.
pub(crate) fn read_kind(
    alloc: Global,
    count: u64,
    kind: u64,
    bytes: &[u8],
) -> Option<(Message, &[u8])>
    ensures ends { IfSome result (λ p. EndsKind count kind (item_of p.0) bytes.now p.1.now) }
    ensures range { IfSome result (λ p. IsMessage p.0) }
{
    match kind {
        0 => read_noop(count, bytes),
        1 => read_discovery(alloc, count, bytes),
        2 => read_response(alloc, count, bytes),
        3 => read_req_neg(alloc, count, bytes),
        4 => read_req_syn(alloc, count, bytes),
        5 => read_negotiate(alloc, count, bytes),
        6 => read_end(alloc, count, bytes),
        7 => read_wait(count, bytes),
        8 => read_synch(alloc, count, bytes),
        9 => read_flood(alloc, count, bytes),
        99 => read_invalid(alloc, count, bytes),
        _ => None,
    }
}

/// M_NOOP.
fn read_noop(count: u64, bytes: &[u8]) -> Option<(Message, &[u8])>
    ensures ends { IfSome result (λ p. EndsKind count 0 (item_of p.0) bytes.now p.1.now) }
    ensures range { IfSome result (λ p. IsMessage p.0) }
{
    if count != 1 {
        return None;
    }
    Some((Message::Noop, bytes))
}

/// M_DISCOVERY.
fn read_discovery(alloc: Global, count: u64, bytes: &[u8]) -> Option<(Message, &[u8])>
    ensures ends { IfSome result (λ p. EndsKind count 1 (item_of p.0) bytes.now p.1.now) }
    ensures range { IfSome result (λ p. IsMessage p.0) }
{
    if count != 4 {
        return None;
    }
    let (session, rest) = read_u32(bytes)?;
    let (initiator, rest) = read_address(rest)?;
    let (objective, rest) = read_objective(alloc, rest)?;
    let message = Message::Discovery {
        session,
        initiator,
        objective,
    };
    Some((message, rest))
}

/// M_RESPONSE.
fn read_response(alloc: Global, count: u64, bytes: &[u8]) -> Option<(Message, &[u8])>
    ensures ends { IfSome result (λ p. EndsKind count 2 (item_of p.0) bytes.now p.1.now) }
    ensures range { IfSome result (λ p. IsMessage p.0) }
{
    if count < 4 {
        return None;
    }
    let (session, rest) = read_u32(bytes)?;
    let (initiator, rest) = read_address(rest)?;
    let (ttl, rest) = read_u32(rest)?;
    let (answer, rest) = read_answer(alloc, count - 4, rest)?;
    let before = 4 + parts_of_answer(&answer);
    let (objective, rest) = read_last_objective(alloc, count, before, rest)?;
    let message = Message::Response {
        session,
        initiator,
        ttl,
        answer,
        objective,
    };
    Some((message, rest))
}

/// The session and the objective of a message that has nothing else.
fn read_told(alloc: Global, count: u64, bytes: &[u8]) -> Option<(u32, Objective, &[u8])>
    ensures leads { IfSome result (λ p. LeadAll (unsigned p.0 ∷ objective_item p.1 ∷ []) bytes.now p.2.now) }
    ensures counts { IfSome result (λ p. count ≡ 3) }
    ensures session { IfSome result (λ p. p.0 < 2 ^ 32) }
    ensures objective { IfSome result (λ p. IsObjective p.1) }
{
    if count != 3 {
        return None;
    }
    let (session, rest) = read_u32(bytes)?;
    let (objective, rest) = read_objective(alloc, rest)?;
    Some((session, objective, rest))
}

/// M_REQ_NEG.
fn read_req_neg(alloc: Global, count: u64, bytes: &[u8]) -> Option<(Message, &[u8])>
    ensures ends { IfSome result (λ p. EndsKind count 3 (item_of p.0) bytes.now p.1.now) }
    ensures range { IfSome result (λ p. IsMessage p.0) }
{
    let (session, objective, rest) = read_told(alloc, count, bytes)?;
    Some((Message::ReqNeg { session, objective }, rest))
}

/// M_REQ_SYN.
fn read_req_syn(alloc: Global, count: u64, bytes: &[u8]) -> Option<(Message, &[u8])>
    ensures ends { IfSome result (λ p. EndsKind count 4 (item_of p.0) bytes.now p.1.now) }
    ensures range { IfSome result (λ p. IsMessage p.0) }
{
    let (session, objective, rest) = read_told(alloc, count, bytes)?;
    Some((Message::ReqSyn { session, objective }, rest))
}

/// M_NEGOTIATE.
fn read_negotiate(alloc: Global, count: u64, bytes: &[u8]) -> Option<(Message, &[u8])>
    ensures ends { IfSome result (λ p. EndsKind count 5 (item_of p.0) bytes.now p.1.now) }
    ensures range { IfSome result (λ p. IsMessage p.0) }
{
    let (session, objective, rest) = read_told(alloc, count, bytes)?;
    Some((Message::Negotiate { session, objective }, rest))
}

/// M_SYNCH.
fn read_synch(alloc: Global, count: u64, bytes: &[u8]) -> Option<(Message, &[u8])>
    ensures ends { IfSome result (λ p. EndsKind count 8 (item_of p.0) bytes.now p.1.now) }
    ensures range { IfSome result (λ p. IsMessage p.0) }
{
    let (session, objective, rest) = read_told(alloc, count, bytes)?;
    Some((Message::Synch { session, objective }, rest))
}

/// M_END.
fn read_end(alloc: Global, count: u64, bytes: &[u8]) -> Option<(Message, &[u8])>
    ensures ends { IfSome result (λ p. EndsKind count 6 (item_of p.0) bytes.now p.1.now) }
    ensures range { IfSome result (λ p. IsMessage p.0) }
{
    if count != 3 {
        return None;
    }
    let (session, rest) = read_u32(bytes)?;
    let (verdict, rest) = read_verdict(alloc, rest)?;
    Some((Message::End { session, verdict }, rest))
}

/// M_WAIT.
fn read_wait(count: u64, bytes: &[u8]) -> Option<(Message, &[u8])>
    ensures ends { IfSome result (λ p. EndsKind count 7 (item_of p.0) bytes.now p.1.now) }
    ensures range { IfSome result (λ p. IsMessage p.0) }
{
    if count != 3 {
        return None;
    }
    let (session, rest) = read_u32(bytes)?;
    let (millis, rest) = read_u32(rest)?;
    Some((Message::Wait { session, millis }, rest))
}

/// M_FLOOD.
fn read_flood(alloc: Global, count: u64, bytes: &[u8]) -> Option<(Message, &[u8])>
    ensures ends { IfSome result (λ p. EndsKind count 9 (item_of p.0) bytes.now p.1.now) }
    ensures range { IfSome result (λ p. IsMessage p.0) }
{
    if count < 4 {
        return None;
    }
    let (session, rest) = read_u32(bytes)?;
    let (initiator, rest) = read_address(rest)?;
    let (ttl, rest) = read_u32(rest)?;
    let (parts, rest) = read_flood_parts(alloc, count - 4, rest)?;
    let message = Message::Flood {
        session,
        initiator,
        ttl,
        parts,
    };
    Some((message, rest))
}

/// M_INVALID.
fn read_invalid(alloc: Global, count: u64, bytes: &[u8]) -> Option<(Message, &[u8])>
    ensures ends { IfSome result (λ p. EndsKind count 99 (item_of p.0) bytes.now p.1.now) }
    ensures range { IfSome result (λ p. IsMessage p.0) }
{
    let (session, rest) = read_u32(bytes)?;
    let (detail, rest) = read_last_value(alloc, count, 2, rest)?;
    Some((Message::Invalid { session, detail }, rest))
}
