//! What is remembered of offers and acceptances.

ghost use Rattle.std.specs.Prelude.{◌≡◌, ◌++◌, [], None, filter, option_map, option_to_list, map, OnOk};
ghost use Rattle.grasp_agent.specs.Reopening.{retired};
ghost use Rattle.grasp_model_network.specs.Offers.{is_listed};
ghost use Rattle.grasp_model_network.specs.World.{end_of};
ghost use Rattle.grasp_simulator.specs.Remembering.{offering_of, begun_in, polled_in, started_by, note_with, end_in, is_among, is_note_of, last_note};
ghost use Rattle.grasp_simulator.specs.Restarts.{is_it, stays_noted};

use crate::seat::BegunOn;
use crate::stream::LifeEnd;
use grasp_agent::PrefixAgent;
use grasp_cbor::OutOfMemory;
use grasp_types::{ApiAnswer, Call, Handle, List, Prefix, Reply};
use std::alloc::Global;

/// What an agent is to offer: by its act, and by the return that it is to request.
#[derive(Clone, Copy, Debug, PartialEq, Eq)]
pub(crate) struct Offering {
    pub(crate) act: Option<Prefix>,
    pub(crate) unsent: Option<Prefix>,
}

/// A prefix that is just offered, and the session in which it is.
#[derive(Clone, Copy, Debug, PartialEq, Eq)]
pub(crate) struct Begun {
    pub(crate) prefix: Prefix,
    pub(crate) handle: Handle,
}

/// A prefix that a node offered in one of its lives, and the number that the stream has there.
#[derive(Clone, Copy, Debug, PartialEq, Eq)]
pub(crate) struct OfferNote {
    pub(crate) node: u8,
    pub(crate) prefix: Prefix,
    pub(crate) life: u64,
    pub(crate) stream: Option<u64>,
}

/// The note of what a node has just begun to offer in a life.
pub(crate) fn note_of(node: u8, life: u64, begun: Option<BegunOn>) -> Option<OfferNote>
    ensures { result ≡ option_map (note_with node life) begun }
{
    let begun = begun?;
    Some(OfferNote {
        node,
        prefix: begun.prefix,
        life,
        stream: begun.stream,
    })
}

/// The prefixes that nodes offered, oldest first, and the ends of streams at which a call has accepted.
#[derive(Drop)]
pub(crate) struct Notes {
    pub(crate) offers: Vec<OfferNote>,
    pub(crate) accepted: List<LifeEnd>,
}

impl Offering {
    /// What the agent is to offer.
    pub(crate) fn of(agent: &PrefixAgent) -> Offering
        ensures { result ≡ offering_of agent.now }
    {
        Offering {
            act: agent.offering(),
            unsent: agent.unsent(),
        }
    }

    /// What the agent has just begun to offer by this call, which was answered so; this is what it was to offer before.
    pub(crate) fn begun(&self, after: &Offering, call: &Call, reply: &Reply) -> Option<Begun>
        ensures { result ≡ begun_in self.now after.now call.now reply.now }
    {
        if self.act.is_none() {
            if let Some(prefix) = after.act {
                let handle = polled_in(call)?;
                return Some(Begun { prefix, handle });
            }
        }
        let prefix = self.unsent?;
        if after.unsent.is_some() {
            return None;
        }
        let handle = started_by(reply)?;
        Some(Begun { prefix, handle })
    }
}

/// The session that is asked how it stands.
fn polled_in(call: &Call) -> Option<Handle>
    ensures { result ≡ polled_in call.now }
{
    match call {
        Call::Poll { handle } => Some(*handle),
        _ => None,
    }
}

/// The session that the reply began.
fn started_by(reply: &Reply) -> Option<Handle>
    ensures { result ≡ started_by reply.now }
{
    match reply {
        Reply::Api(ApiAnswer::Started(handle)) => Some(*handle),
        _ => None,
    }
}

impl OfferNote {
    /// Whether it is of this prefix of the node.
    fn is_of(&self, node: u8, prefix: Prefix) -> bool
        ensures { result ≡ is_note_of node prefix self.now }
    {
        self.node == node && prefix == self.prefix
    }
}

impl Notes {
    /// Nothing was offered or accepted.
    pub(crate) fn new(alloc: Global) -> Notes
        ensures offers { result.offers.items ≡ [] }
        ensures accepted { result.accepted ≡ [] }
    {
        Notes {
            offers: Vec::new(alloc),
            accepted: List::new(alloc),
        }
    }

    /// The node offers this prefix from now on, where there is one. After an `Err` nothing is said of the notes.
    pub(crate) fn offer(&mut self, note: Option<OfferNote>) -> Result<(), OutOfMemory>
        ensures offers { OnOk result (self.new.offers.items ≡ self.old.offers.items ++ option_to_list note) }
        ensures accepted { self.new.accepted ≡ self.old.accepted }
    {
        if let Some(note) = note {
            self.offers.push(note)?;
        }
        Ok(())
    }

    /// The last note of this prefix of the node.
    pub(crate) fn last(&self, node: u8, prefix: Prefix) -> Option<OfferNote>
        ensures { result ≡ last_note node prefix self.now.offers.items None }
    {
        let mut found = None;
        for note in &self.offers {
            if note.is_of(node, prefix) {
                found = Some(*note);
            }
        }
        found
    }

    /// Whether a call has accepted at this end of a stream.
    pub(crate) fn has_accepted(&self, end: LifeEnd) -> bool
        ensures { result ≡ is_among (end_of end.life end.number) self.now.accepted }
    {
        self.accepted
            .slice()
            .iter()
            .any(|other| other.is_at(end.life, end.number))
    }

    /// The node has accepted on the stream of this number in this life, where there is one. After an `Err` nothing is said of the
    /// notes.
    pub(crate) fn accept(&mut self, life: u64, stream: Option<u64>) -> Result<(), OutOfMemory>
        ensures offers { self.new.offers.items ≡ self.old.offers.items }
        ensures accepted { OnOk result (self.new.accepted ≡ self.old.accepted ++ map (end_in life) (option_to_list stream)) }
    {
        if let Some(number) = stream {
            self.accepted.push(LifeEnd { life, number })?;
        }
        Ok(())
    }

    /// A life of the node ends, with this agent: what it was to offer and hadn't offered, and what it had offered and was
    /// answered, is noted no longer.
    pub(crate) fn end_life(&mut self, node: u8, agent: &PrefixAgent)
        ensures offers { self.new.offers.items ≡ filter (stays_noted node (retired agent.now).pool) self.old.offers.items }
        ensures accepted { self.new.accepted ≡ self.old.accepted }
    {
        self.offers
            .retain(|note| note.node != node || is_left(agent, note.prefix));
    }
}

/// Whether an agent whose life ends has offered the prefix, which wasn't answered, or has it in doubt.
pub(crate) fn is_left(agent: &PrefixAgent, prefix: Prefix) -> bool
    ensures { result ≡ is_listed (retired agent.now).pool prefix }
{
    let pool = agent.pool();
    if pool.is_doubtful(prefix) {
        return true;
    }
    if !pool.is_reserved(prefix) {
        return false;
    }
    if is_it(agent.offering(), prefix) {
        return false;
    }
    !is_it(agent.unsent(), prefix)
}

/// Whether there is a prefix that is this one.
fn is_it(one: Option<Prefix>, prefix: Prefix) -> bool
    ensures { result ≡ is_it one prefix }
{
    match one {
        Some(one) => prefix == one,
        None => false,
    }
}
