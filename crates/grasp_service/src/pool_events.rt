//! The events of prefixes.

use grasp_agent::{PoolChange, PrefixAgent};
use grasp_cbor::{Octets, OutOfMemory};
use grasp_control::NodeEvent;
use grasp_service_visits::add_event;
use grasp_types::{List, Prefix, Reply};
use std::alloc::Global;

/// What is to be known of the agent of prefixes when it has taken a reply: what that changes, and what it offered before.
#[derive(Clone, Copy)]
pub(crate) struct Changing {
    change: PoolChange,
    offered: Option<Prefix>,
}

/// What a reply changes that the agent is to take.
pub(crate) fn change_by(agent: &PrefixAgent, reply: &Reply) -> Changing {
    Changing {
        change: agent.effect(reply),
        offered: agent.offering(),
    }
}

/// Adds what a reply has changed of an agent's prefixes, and what the agent offers since.
pub(crate) fn add_changes(
    alloc: Global,
    events: &mut List<Octets>,
    now: u64,
    agent: &PrefixAgent,
    changing: &Changing,
) -> Result<(), OutOfMemory> {
    add_some(alloc, events, now, event_of(&changing.change))?;
    let offered = offer_event(agent.offering(), changing.offered);
    add_some(alloc, events, now, offered)
}

/// Adds an event, where there is one.
fn add_some(
    alloc: Global,
    events: &mut List<Octets>,
    now: u64,
    event: Option<NodeEvent>,
) -> Result<(), OutOfMemory> {
    match event {
        Some(event) => add_event(alloc, events, now, event),
        None => Ok(()),
    }
}

/// What is told of a change.
fn event_of(change: &PoolChange) -> Option<NodeEvent> {
    match change {
        PoolChange::Stays => None,
        PoolChange::Gained(prefix) => Some(NodeEvent::Gained(*prefix)),
        PoolChange::Given(prefix) => Some(NodeEvent::Given(*prefix)),
        PoolChange::Back(prefix) => Some(NodeEvent::Back(*prefix)),
        PoolChange::Doubted(prefix) => Some(NodeEvent::Doubt(*prefix)),
        PoolChange::Decided(back) => back_event(*back),
    }
}

/// What is told of a prefix that is free again, where there is one.
fn back_event(back: Option<Prefix>) -> Option<NodeEvent> {
    match back {
        Some(prefix) => Some(NodeEvent::Back(prefix)),
        None => None,
    }
}

/// What is told of an offer, where it isn't the one that there was before.
fn offer_event(offering: Option<Prefix>, before: Option<Prefix>) -> Option<NodeEvent> {
    match offering {
        Some(prefix) if is_another(before, prefix) => Some(NodeEvent::Offered(prefix)),
        _ => None,
    }
}

/// Whether a prefix isn't the one that there was before.
fn is_another(before: Option<Prefix>, prefix: Prefix) -> bool {
    match before {
        Some(old) => old.address() != prefix.address() || old.length() != prefix.length(),
        None => true,
    }
}
