//! Reading the calls of agents.
use crate::fault::LineFault;
use crate::plan::{address_of, locator_of};
use crate::row_node::RowNode;
use grasp_text::{Words, read_locator};
use grasp_types::{Call, Handle, Kind, Locator, Verdict};
use std::alloc::Global;

/// Takes a call of an agent of this node.
pub fn read_call(alloc: Global, words: &mut Words<'_>, seat: &RowNode) -> Result<Call, LineFault> {
    let (word, _) = words.next()?;
    match word {
        b"asa" | b"unasa" | b"objective" | b"unobjective" => read_registry(alloc, words, word),
        b"listen" | b"unlisten" | b"offer" | b"unoffer" => read_listening(alloc, words, word),
        b"discover" => read_discover(alloc, words),
        b"request" => read_request(alloc, words),
        b"synchronize" => read_synchronize(alloc, words),
        b"flood" | b"floods" | b"expire" => read_flooding(alloc, words, word),
        _ => read_act(alloc, words, word, seat),
    }
}

/// Takes what stands behind the name of a call on agents and objectives.
fn read_registry(alloc: Global, words: &mut Words<'_>, call: &[u8]) -> Result<Call, LineFault> {
    match call {
        b"asa" => Ok(Call::RegisterAsa {
            name: words.text(alloc)?,
        }),
        b"unasa" => Ok(Call::DeregisterAsa),
        b"objective" => {
            let name = words.text(alloc)?;
            let flags = words.flags()?;
            Ok(Call::RegisterObjective { name, flags })
        }
        _ => Ok(Call::DeregisterObjective {
            name: words.text(alloc)?,
        }),
    }
}

/// Takes what stands behind the name of a call on what others ask for.
fn read_listening(alloc: Global, words: &mut Words<'_>, call: &[u8]) -> Result<Call, LineFault> {
    let name = words.text(alloc)?;
    match call {
        b"listen" => Ok(Call::ListenNegotiate { name }),
        b"unlisten" => Ok(Call::StopListenNegotiate { name }),
        b"offer" => {
            let value = words.value(alloc)?;
            Ok(Call::ListenSynchronize { name, value })
        }
        _ => Ok(Call::StopListenSynchronize { name }),
    }
}

/// The words of a search.
fn read_discover(alloc: Global, words: &mut Words<'_>) -> Result<Call, LineFault> {
    let name = words.text(alloc)?;
    let kind = if read_choice(words, b"neg", b"syn")? {
        Kind::Negotiation
    } else {
        Kind::Synchronization
    };
    let loops = words.number(255)? as u8;
    let timeout = words.u32()?;
    Ok(Call::Discover {
        name,
        kind,
        loops,
        timeout,
    })
}

/// The words of a request for negotiation.
fn read_request(alloc: Global, words: &mut Words<'_>) -> Result<Call, LineFault> {
    let name = words.text(alloc)?;
    let value = words.value(alloc)?;
    let loops = words.number(255)? as u8;
    let timeout = words.u32()?;
    let dry = read_choice(words, b"dry", b"wet")?;
    let peer = read_peer(alloc, words)?;
    Ok(Call::RequestNegotiate {
        name,
        value,
        loops,
        timeout,
        dry,
        peer,
    })
}

/// The words of a request for synchronization.
fn read_synchronize(alloc: Global, words: &mut Words<'_>) -> Result<Call, LineFault> {
    let name = words.text(alloc)?;
    let loops = words.number(255)? as u8;
    let timeout = words.u32()?;
    let peer = read_peer(alloc, words)?;
    Ok(Call::Synchronize {
        name,
        loops,
        timeout,
        peer,
    })
}

/// Takes what stands behind the name of a call on floods.
fn read_flooding(alloc: Global, words: &mut Words<'_>, call: &[u8]) -> Result<Call, LineFault> {
    let name = words.text(alloc)?;
    match call {
        b"flood" => {
            let value = words.value(alloc)?;
            let ttl = words.u32()?;
            let loops = words.number(255)? as u8;
            Ok(Call::Flood {
                name,
                value,
                ttl,
                loops,
            })
        }
        b"floods" => Ok(Call::GetFlood { name }),
        _ => {
            let initiator = address_of(words.number(255)? as u8);
            Ok(Call::ExpireFlood { name, initiator })
        }
    }
}

/// Takes what stands behind the name of a call in a session.
fn read_act(
    alloc: Global,
    words: &mut Words<'_>,
    call: &[u8],
    seat: &RowNode,
) -> Result<Call, LineFault> {
    let handle = seat.handle(words.number(u64::MAX)?);
    match call {
        b"step" => {
            let value = words.value(alloc)?;
            Ok(Call::NegotiateStep { handle, value })
        }
        b"wait" => {
            let millis = words.u32()?;
            Ok(Call::NegotiateWait { handle, millis })
        }
        b"accept" => Ok(Call::EndNegotiate {
            handle,
            verdict: Verdict::Accept,
        }),
        b"decline" => read_decline(alloc, words, handle),
        b"invalid" => {
            let detail = words.optional_value(alloc)?;
            Ok(Call::SendInvalid { handle, detail })
        }
        b"poll" => Ok(Call::Poll { handle }),
        _ => Err(LineFault::Bad),
    }
}

/// Takes the reason of a decline, where there is one.
fn read_decline(alloc: Global, words: &mut Words<'_>, handle: Handle) -> Result<Call, LineFault> {
    let reason = if words.is_over() {
        None
    } else {
        Some(words.text(alloc)?)
    };
    Ok(Call::EndNegotiate {
        handle,
        verdict: Verdict::Decline(reason),
    })
}

/// Takes one of two words: whether it is the first.
fn read_choice(words: &mut Words<'_>, first: &[u8], second: &[u8]) -> Result<bool, LineFault> {
    let is_first = words.is_next(first);
    words.exactly(if is_first { first } else { second })?;
    Ok(is_first)
}

/// Takes a peer: the number of a node, or `at` and a locator.
pub fn read_peer(alloc: Global, words: &mut Words<'_>) -> Result<Locator, LineFault> {
    if words.is_next(b"at") {
        words.exactly(b"at")?;
        Ok(read_locator(alloc, words)?)
    } else {
        Ok(locator_of(words.number(255)? as u8))
    }
}
