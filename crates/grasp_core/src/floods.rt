//! A flood that comes by datagram (RFC 8990, section 2.5.6.2).

ghost use Rattle.std.specs.Prelude.{◌≡◌, ◌≤◌, ◌-◌, IfOk, OnOk, OnErr};
ghost use Rattle.grasp_flood.specs.Floods.{heard_reply};
ghost use Rattle.grasp_types.specs.Flood.{first_loops};
ghost use Rattle.grasp_types.specs.Origin.{origin_of};
ghost use Rattle.grasp_core.specs.Carried.{flood_sent};
ghost use Rattle.grasp_model_node.specs.Datagrams.{loops_of, flood_kept, flood_heard, after_flood};
ghost use Rattle.grasp_model_node.specs.Node.{NodeState};
ghost use Rattle.grasp_core.specs.Stands.{NodeStands};

use crate::NodeCore;
use grasp_cbor::OutOfMemory;
use grasp_flood::Heard;
use grasp_types::{Address, FloodParts, Message, Plain};

impl NodeCore {
    /// A flood comes. After an `Err` all is as before.
    pub(crate) fn flood_came(
        &mut self,
        link: u8,
        session: u32,
        initiator: Address,
        ttl: u32,
        parts: &FloodParts,
    ) -> Result<(), OutOfMemory>
        ensures ok { OnOk result
            ((n : NodeState) → NodeStands self.old n → NodeStands self.new (after_flood n link session initiator ttl parts.now)) }
        ensures err { OnErr result ((n : NodeState) → NodeStands self.old n → NodeStands self.new n) }
    {
        if self.plan.address == initiator {
            return Ok(());
        }
        self.flood_heard(link, session, initiator, ttl, parts)
    }

    /// A flood of another node comes: it is kept, and sent on where it is new and its loop count allows it.
    fn flood_heard(
        &mut self,
        link: u8,
        session: u32,
        initiator: Address,
        ttl: u32,
        parts: &FloodParts,
    ) -> Result<(), OutOfMemory>
        ensures ok { OnOk result ((n : NodeState) → NodeStands self.old n
            → NodeStands self.new
            (flood_heard n link session initiator ttl parts.now (heard_reply n.floods (origin_of session initiator)))) }
        ensures err { OnErr result ((n : NodeState) → NodeStands self.old n → NodeStands self.new n) }
    {
        let loops = loops_of(parts);
        if loops < 2 {
            return self.keep_only(session, initiator, ttl, parts);
        }
        if self.floods.remembers(session, initiator) {
            return self.keep_only(session, initiator, ttl, parts);
        }
        self.keep_and_relay(link, session, initiator, ttl, parts)
    }

    /// A flood comes that isn't sent on.
    fn keep_only(
        &mut self,
        session: u32,
        initiator: Address,
        ttl: u32,
        parts: &FloodParts,
    ) -> Result<(), OutOfMemory>
        ensures ok { OnOk result ((n : NodeState) → NodeStands self.old n
            → NodeStands self.new
            (flood_kept n session initiator ttl parts.now (heard_reply n.floods (origin_of session initiator)))) }
        ensures err { OnErr result ((n : NodeState) → NodeStands self.old n → NodeStands self.new n) }
    {
        match self.keep_flood(session, initiator, ttl, parts) {
            Ok(_) => Ok(()),
            Err(_) => Err(OutOfMemory),
        }
    }

    /// A flood comes, and is sent on where it is new.
    fn keep_and_relay(
        &mut self,
        link: u8,
        session: u32,
        initiator: Address,
        ttl: u32,
        parts: &FloodParts,
    ) -> Result<(), OutOfMemory>
        requires { 2 ≤ loops_of parts.now }
        ensures ok { OnOk result ((n : NodeState) → NodeStands self.old n
            → NodeStands self.new
            (flood_heard n link session initiator ttl parts.now (heard_reply n.floods (origin_of session initiator)))) }
        ensures err { OnErr result ((n : NodeState) → NodeStands self.old n → NodeStands self.new n) }
    {
        let flood = lowered_flood(session, initiator, ttl, parts)?;
        self.keep_and_send(link, session, initiator, ttl, parts, &flood)
    }

    /// A flood comes, and where it is new this is sent to every neighbour of every other link.
    fn keep_and_send(
        &mut self,
        link: u8,
        session: u32,
        initiator: Address,
        ttl: u32,
        parts: &FloodParts,
        flood: &Message,
    ) -> Result<(), OutOfMemory>
        ensures ok { OnOk result ((n : NodeState) → NodeStands self.old n
            → NodeStands self.new
            (flood_sent n link session initiator ttl parts.now flood.now (heard_reply n.floods (origin_of session initiator)))) }
        ensures err { OnErr result ((n : NodeState) → NodeStands self.old n → NodeStands self.new n) }
    {
        let ready = self.ready_relay(link, flood)?;
        match self.keep_flood(session, initiator, ttl, parts) {
            Ok(Heard::New) => {
                self.relay_ready(link, flood, ready);
                Ok(())
            }
            Ok(Heard::Known) => Ok(()),
            Ok(Heard::NoPlace) => Ok(()),
            Err(_) => Err(OutOfMemory),
        }
    }

    /// A flood comes, and is kept, or renews what it told. After an `Err` all is as before.
    #[tactic(auto, unfolding(grasp_model_node::specs::Moves::with_floods))]
    fn keep_flood(
        &mut self,
        session: u32,
        initiator: Address,
        ttl: u32,
        parts: &FloodParts,
    ) -> Result<Heard, OutOfMemory>
        ensures ok { IfOk result (λ heard. (n : NodeState) → NodeStands self.old n
            → (heard ≡ heard_reply n.floods (origin_of session initiator))
            × NodeStands self.new (flood_kept n session initiator ttl parts.now heard)) }
        ensures err { OnErr result ((n : NodeState) → NodeStands self.old n → NodeStands self.new n) }
        ensures queue { self.new.queue ≡ self.old.queue }
        ensures streams { self.new.streams ≡ self.old.streams }
        ensures ways { self.new.ways ≡ self.old.ways }
    {
        self.floods
            .heard(self.reading, session, initiator, ttl, parts)
    }
}

/// The loop count of the first objective.
fn loops_of(parts: &FloodParts) -> u8
    ensures { result ≡ loops_of parts.now }
{
    match parts.at(0) {
        Some(part) => part.objective.loops,
        None => 0,
    }
}

/// A flood with a loop count less by one.
fn lowered_flood(
    session: u32,
    initiator: Address,
    ttl: u32,
    parts: &FloodParts,
) -> Result<Message, OutOfMemory>
    requires { 2 ≤ loops_of parts.now }
    ensures { IfOk result (λ message. message ≡ Message.Flood session initiator ttl (first_loops parts.now (loops_of parts.now - 1))) }
{
    let loops = loops_of(parts);
    let mut parts = parts.copy()?;
    parts.set_first_loops(loops - 1);
    Ok(Message::Flood {
        session,
        initiator,
        ttl,
        parts,
    })
}
