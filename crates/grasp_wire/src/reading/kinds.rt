//! Messages of each kind, read from the parts of their arrays, the number of the kind among them (RFC 8990, section 2.8).

ghost use Rattle.std.specs.Prelude.{◌≡◌, IfOk};
ghost use Rattle.grasp_cbor.specs.Item.{items_of};
ghost use Rattle.grasp_wire.specs.ReadMessages.{told_of, req_neg_of, req_syn_of, negotiate_of, synch_of, noop_of, discovery_of, response_of, end_of};
ghost use Rattle.grasp_wire.specs.ReadMessages.{wait_of, flood_of, invalid_of};

use crate::reading::address::address_at;
use crate::reading::answer::{answer_between, answer_end};
use crate::reading::flood::flood_parts_from;
use crate::reading::objective::{last_objective_at, last_value_at, objective_at};
use crate::reading::scalars::narrow_at;
use crate::reading::verdict::verdict_at;
use grasp_cbor::{Items, OutOfMemory};
use grasp_types::{Message, Objective};
use std::alloc::Global;

/// M_NOOP.
#[tactic(auto, unfolding(crate::specs::ReadMessages::noop_of))]
pub(crate) fn noop_of(parts: &Items) -> Option<Message>
    ensures { result ≡ noop_of (items_of parts.now) }
{
    if parts.len() == 1 {
        Some(Message::Noop)
    } else {
        None
    }
}

/// M_DISCOVERY.
#[tactic(auto, unfolding(crate::specs::ReadMessages::discovery_of))]
pub(crate) fn discovery_of(parts: &Items) -> Result<Option<Message>, OutOfMemory>
    ensures { IfOk result (λ r. r ≡ discovery_of (items_of parts.now)) }
{
    if parts.len() != 4 {
        return Ok(None);
    }
    let Some(session) = narrow_at(parts, 1) else {
        return Ok(None);
    };
    let Some(initiator) = address_at(parts, 2) else {
        return Ok(None);
    };
    let Some(objective) = objective_at(parts, 3)? else {
        return Ok(None);
    };
    Ok(Some(Message::Discovery {
        session,
        initiator,
        objective,
    }))
}

/// M_RESPONSE.
#[tactic(auto, unfolding(crate::specs::ReadMessages::response_of))]
pub(crate) fn response_of(alloc: Global, parts: &Items) -> Result<Option<Message>, OutOfMemory>
    ensures { IfOk result (λ r. r ≡ response_of (items_of parts.now)) }
{
    let Some(session) = narrow_at(parts, 1) else {
        return Ok(None);
    };
    let Some(initiator) = address_at(parts, 2) else {
        return Ok(None);
    };
    let Some(ttl) = narrow_at(parts, 3) else {
        return Ok(None);
    };
    let end = answer_end(parts);
    let Some(answer) = answer_between(alloc, parts, 4, end)? else {
        return Ok(None);
    };
    let Some(objective) = last_objective_at(parts, end)? else {
        return Ok(None);
    };
    Ok(Some(Message::Response {
        session,
        initiator,
        ttl,
        answer,
        objective,
    }))
}

/// The session and the objective of a message that has nothing else.
#[tactic(auto, unfolding(crate::specs::ReadMessages::told_of))]
fn told_of(parts: &Items) -> Result<Option<(u32, Objective)>, OutOfMemory>
    ensures { IfOk result (λ r. r ≡ told_of (items_of parts.now)) }
{
    if parts.len() != 3 {
        return Ok(None);
    }
    let Some(session) = narrow_at(parts, 1) else {
        return Ok(None);
    };
    let Some(objective) = objective_at(parts, 2)? else {
        return Ok(None);
    };
    Ok(Some((session, objective)))
}

/// M_REQ_NEG.
#[tactic(auto, unfolding(crate::specs::ReadMessages::req_neg_of))]
pub(crate) fn req_neg_of(parts: &Items) -> Result<Option<Message>, OutOfMemory>
    ensures { IfOk result (λ r. r ≡ req_neg_of (items_of parts.now)) }
{
    match told_of(parts)? {
        Some((session, objective)) => Ok(Some(Message::ReqNeg { session, objective })),
        None => Ok(None),
    }
}

/// M_REQ_SYN.
#[tactic(auto, unfolding(crate::specs::ReadMessages::req_syn_of))]
pub(crate) fn req_syn_of(parts: &Items) -> Result<Option<Message>, OutOfMemory>
    ensures { IfOk result (λ r. r ≡ req_syn_of (items_of parts.now)) }
{
    match told_of(parts)? {
        Some((session, objective)) => Ok(Some(Message::ReqSyn { session, objective })),
        None => Ok(None),
    }
}

/// M_NEGOTIATE.
#[tactic(auto, unfolding(crate::specs::ReadMessages::negotiate_of))]
pub(crate) fn negotiate_of(parts: &Items) -> Result<Option<Message>, OutOfMemory>
    ensures { IfOk result (λ r. r ≡ negotiate_of (items_of parts.now)) }
{
    match told_of(parts)? {
        Some((session, objective)) => Ok(Some(Message::Negotiate { session, objective })),
        None => Ok(None),
    }
}

/// M_SYNCH.
#[tactic(auto, unfolding(crate::specs::ReadMessages::synch_of))]
pub(crate) fn synch_of(parts: &Items) -> Result<Option<Message>, OutOfMemory>
    ensures { IfOk result (λ r. r ≡ synch_of (items_of parts.now)) }
{
    match told_of(parts)? {
        Some((session, objective)) => Ok(Some(Message::Synch { session, objective })),
        None => Ok(None),
    }
}

/// M_END.
#[tactic(auto, unfolding(crate::specs::ReadMessages::end_of))]
pub(crate) fn end_of(parts: &Items) -> Result<Option<Message>, OutOfMemory>
    ensures { IfOk result (λ r. r ≡ end_of (items_of parts.now)) }
{
    if parts.len() != 3 {
        return Ok(None);
    }
    let Some(session) = narrow_at(parts, 1) else {
        return Ok(None);
    };
    let Some(verdict) = verdict_at(parts, 2)? else {
        return Ok(None);
    };
    Ok(Some(Message::End { session, verdict }))
}

/// M_WAIT.
#[tactic(auto, unfolding(crate::specs::ReadMessages::wait_of))]
pub(crate) fn wait_of(parts: &Items) -> Option<Message>
    ensures { result ≡ wait_of (items_of parts.now) }
{
    if parts.len() != 3 {
        return None;
    }
    let session = narrow_at(parts, 1)?;
    let millis = narrow_at(parts, 2)?;
    Some(Message::Wait { session, millis })
}

/// M_FLOOD.
#[tactic(auto, unfolding(crate::specs::ReadMessages::flood_of))]
pub(crate) fn flood_of(alloc: Global, parts: &Items) -> Result<Option<Message>, OutOfMemory>
    ensures { IfOk result (λ r. r ≡ flood_of (items_of parts.now)) }
{
    let Some(session) = narrow_at(parts, 1) else {
        return Ok(None);
    };
    let Some(initiator) = address_at(parts, 2) else {
        return Ok(None);
    };
    let Some(ttl) = narrow_at(parts, 3) else {
        return Ok(None);
    };
    let Some(parts) = flood_parts_from(alloc, parts, 4)? else {
        return Ok(None);
    };
    Ok(Some(Message::Flood {
        session,
        initiator,
        ttl,
        parts,
    }))
}

/// M_INVALID.
#[tactic(auto, unfolding(crate::specs::ReadMessages::invalid_of))]
pub(crate) fn invalid_of(parts: &Items) -> Result<Option<Message>, OutOfMemory>
    ensures { IfOk result (λ r. r ≡ invalid_of (items_of parts.now)) }
{
    let Some(session) = narrow_at(parts, 1) else {
        return Ok(None);
    };
    let Some(detail) = last_value_at(parts, 2)? else {
        return Ok(None);
    };
    Ok(Some(Message::Invalid { session, detail }))
}
