//! Reading the calls of agents.

ghost use Rattle.std.specs.Prelude.{◌≡◌};
ghost use Rattle.grasp_text.specs.Grammar.{reason_at};
ghost use Rattle.grasp_text.specs.Reading.{Reads, word_at};
ghost use Rattle.grasp_script.specs.Calls.{may_call};
ghost use Rattle.grasp_script.specs.Grammar.{call_of, call_at, called_at, name_at, session_at, objective_call_at, discover_at, request_at, step_at};
ghost use Rattle.grasp_script.specs.Grammar.{wait_at, decline_at, invalid_at, synchronize_at, offer_at, flood_at, expire_at};

use crate::names::{CallName, call_name};
use crate::places::{read_dry, read_handle, read_initiator, read_kind, read_peer};
use grasp_cbor::Chars;
use grasp_text::{WordFault, Words};
use grasp_types::{Call, Handle, Verdict};
use std::alloc::Global;

/// Takes a call, to the end of the line.
#[tactic(auto, unfolding(crate::specs::Grammar::call_at))]
pub fn read_call(alloc: Global, words: &mut Words<'_>, nodes: u8) -> Result<Call, WordFault>
    ensures { Reads (λ c. c) result words.new (call_at nodes words.old) }
{
    let name = read_call_name(words)?;
    read_called(alloc, words, name, nodes)
}

/// Whether an agent of this number may make the call.
pub fn may_make(asa: u32, call: &Call) -> bool
    ensures { result ≡ may_call asa call.now }
{
    match call {
        Call::RegisterAsa { .. } => asa == 0,
        _ => asa >= 2,
    }
}

/// Takes a call's first word.
pub fn read_call_name(words: &mut Words<'_>) -> Result<CallName, WordFault>
    ensures { Reads (λ n. n) result words.new (word_at call_of words.old) }
{
    let (word, unfit) = words.next()?;
    call_name(word).ok_or(unfit)
}

/// Takes what stands behind a call's first word, to the end of the line.
pub fn read_called(
    alloc: Global,
    words: &mut Words<'_>,
    call: CallName,
    nodes: u8,
) -> Result<Call, WordFault>
    ensures { Reads (λ c. c) result words.new (called_at nodes call words.old) }
{
    match call {
        CallName::Asa => Ok(Call::RegisterAsa {
            name: read_name(alloc, words)?,
        }),
        CallName::Unasa => {
            words.end()?;
            Ok(Call::DeregisterAsa)
        }
        CallName::Objective => read_objective_call(alloc, words),
        CallName::Unobjective => Ok(Call::DeregisterObjective {
            name: read_name(alloc, words)?,
        }),
        CallName::Discover => read_discover(alloc, words),
        CallName::Request => read_request(alloc, words, nodes),
        CallName::Listen => Ok(Call::ListenNegotiate {
            name: read_name(alloc, words)?,
        }),
        CallName::Unlisten => Ok(Call::StopListenNegotiate {
            name: read_name(alloc, words)?,
        }),
        CallName::Step => read_step(alloc, words),
        CallName::Wait => read_wait(words),
        CallName::Accept => Ok(Call::EndNegotiate {
            handle: read_session(words)?,
            verdict: Verdict::Accept,
        }),
        CallName::Decline => read_decline(alloc, words),
        CallName::Invalid => read_invalid(alloc, words),
        CallName::Poll => Ok(Call::Poll {
            handle: read_session(words)?,
        }),
        CallName::Synchronize => read_synchronize(alloc, words, nodes),
        CallName::Offer => read_offer(alloc, words),
        CallName::Unoffer => Ok(Call::StopListenSynchronize {
            name: read_name(alloc, words)?,
        }),
        CallName::Flood => read_flood(alloc, words),
        CallName::Floods => Ok(Call::GetFlood {
            name: read_name(alloc, words)?,
        }),
        CallName::Expire => read_expire(alloc, words, nodes),
    }
}

/// Takes a name, and nothing more.
#[tactic(auto, unfolding(crate::specs::Grammar::name_at))]
fn read_name(alloc: Global, words: &mut Words<'_>) -> Result<Chars, WordFault>
    ensures { Reads (λ t. t) result words.new (name_at words.old) }
{
    let name = words.text(alloc)?;
    words.end()?;
    Ok(name)
}

/// Takes a session, and nothing more.
#[tactic(auto, unfolding(crate::specs::Grammar::session_at))]
fn read_session(words: &mut Words<'_>) -> Result<Handle, WordFault>
    ensures { Reads (λ h. h) result words.new (session_at words.old) }
{
    let handle = read_handle(words)?;
    words.end()?;
    Ok(handle)
}

#[tactic(auto, unfolding(crate::specs::Grammar::objective_call_at))]
fn read_objective_call(alloc: Global, words: &mut Words<'_>) -> Result<Call, WordFault>
    ensures { Reads (λ c. c) result words.new (objective_call_at words.old) }
{
    let name = words.text(alloc)?;
    let flags = words.flags()?;
    words.end()?;
    Ok(Call::RegisterObjective { name, flags })
}

#[tactic(auto, unfolding(crate::specs::Grammar::discover_at))]
fn read_discover(alloc: Global, words: &mut Words<'_>) -> Result<Call, WordFault>
    ensures { Reads (λ c. c) result words.new (discover_at words.old) }
{
    let name = words.text(alloc)?;
    let kind = read_kind(words)?;
    let loops = words.number(255)? as u8;
    let timeout = words.u32()?;
    words.end()?;
    Ok(Call::Discover {
        name,
        kind,
        loops,
        timeout,
    })
}

#[tactic(auto, unfolding(crate::specs::Grammar::request_at))]
fn read_request(alloc: Global, words: &mut Words<'_>, nodes: u8) -> Result<Call, WordFault>
    ensures { Reads (λ c. c) result words.new (request_at nodes words.old) }
{
    let name = words.text(alloc)?;
    let value = words.value(alloc)?;
    let loops = words.number(255)? as u8;
    let timeout = words.u32()?;
    let dry = read_dry(words)?;
    let peer = read_peer(words, nodes)?;
    words.end()?;
    Ok(Call::RequestNegotiate {
        name,
        value,
        loops,
        timeout,
        dry,
        peer,
    })
}

#[tactic(auto, unfolding(crate::specs::Grammar::step_at))]
fn read_step(alloc: Global, words: &mut Words<'_>) -> Result<Call, WordFault>
    ensures { Reads (λ c. c) result words.new (step_at words.old) }
{
    let handle = read_handle(words)?;
    let value = words.value(alloc)?;
    words.end()?;
    Ok(Call::NegotiateStep { handle, value })
}

#[tactic(auto, unfolding(crate::specs::Grammar::wait_at))]
fn read_wait(words: &mut Words<'_>) -> Result<Call, WordFault>
    ensures { Reads (λ c. c) result words.new (wait_at words.old) }
{
    let handle = read_handle(words)?;
    let millis = words.u32()?;
    words.end()?;
    Ok(Call::NegotiateWait { handle, millis })
}

/// Takes a reason, where there is one, and nothing more.
pub fn read_reason(alloc: Global, words: &mut Words<'_>) -> Result<Option<Chars>, WordFault>
    ensures { Reads (λ r. r) result words.new (reason_at words.old) }
{
    if words.is_over() {
        return Ok(None);
    }
    let reason = words.text(alloc)?;
    words.end()?;
    Ok(Some(reason))
}

#[tactic(auto, unfolding(crate::specs::Grammar::decline_at))]
fn read_decline(alloc: Global, words: &mut Words<'_>) -> Result<Call, WordFault>
    ensures { Reads (λ c. c) result words.new (decline_at words.old) }
{
    let handle = read_handle(words)?;
    let reason = read_reason(alloc, words)?;
    Ok(Call::EndNegotiate {
        handle,
        verdict: Verdict::Decline(reason),
    })
}

#[tactic(auto, unfolding(crate::specs::Grammar::invalid_at))]
fn read_invalid(alloc: Global, words: &mut Words<'_>) -> Result<Call, WordFault>
    ensures { Reads (λ c. c) result words.new (invalid_at words.old) }
{
    let handle = read_handle(words)?;
    let detail = words.optional_value(alloc)?;
    words.end()?;
    Ok(Call::SendInvalid { handle, detail })
}

#[tactic(auto, unfolding(crate::specs::Grammar::synchronize_at))]
fn read_synchronize(alloc: Global, words: &mut Words<'_>, nodes: u8) -> Result<Call, WordFault>
    ensures { Reads (λ c. c) result words.new (synchronize_at nodes words.old) }
{
    let name = words.text(alloc)?;
    let loops = words.number(255)? as u8;
    let timeout = words.u32()?;
    let peer = read_peer(words, nodes)?;
    words.end()?;
    Ok(Call::Synchronize {
        name,
        loops,
        timeout,
        peer,
    })
}

#[tactic(auto, unfolding(crate::specs::Grammar::offer_at))]
fn read_offer(alloc: Global, words: &mut Words<'_>) -> Result<Call, WordFault>
    ensures { Reads (λ c. c) result words.new (offer_at words.old) }
{
    let name = words.text(alloc)?;
    let value = words.value(alloc)?;
    words.end()?;
    Ok(Call::ListenSynchronize { name, value })
}

#[tactic(auto, unfolding(crate::specs::Grammar::flood_at))]
fn read_flood(alloc: Global, words: &mut Words<'_>) -> Result<Call, WordFault>
    ensures { Reads (λ c. c) result words.new (flood_at words.old) }
{
    let name = words.text(alloc)?;
    let value = words.value(alloc)?;
    let ttl = words.u32()?;
    let loops = words.number(255)? as u8;
    words.end()?;
    Ok(Call::Flood {
        name,
        value,
        ttl,
        loops,
    })
}

#[tactic(auto, unfolding(crate::specs::Grammar::expire_at))]
fn read_expire(alloc: Global, words: &mut Words<'_>, nodes: u8) -> Result<Call, WordFault>
    ensures { Reads (λ c. c) result words.new (expire_at nodes words.old) }
{
    let name = words.text(alloc)?;
    let initiator = read_initiator(words, nodes)?;
    words.end()?;
    Ok(Call::ExpireFlood { name, initiator })
}
