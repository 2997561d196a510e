//! A discovery that comes by datagram (RFC 8990, section 2.5.4).

ghost use Rattle.std.specs.Prelude.{◌≡◌, ◌≤◌, IfOk, OnOk, OnErr};
ghost use Rattle.grasp_asa.specs.Answers.{flags_registered};
ghost use Rattle.grasp_discovery.specs.Discoveries.{heard_reply};
ghost use Rattle.grasp_discovery.specs.Topic.{kind_of};
ghost use Rattle.grasp_types.specs.Origin.{origin_of};
ghost use Rattle.grasp_core.specs.Carried.{where_new, known_at, passed_kept, relayed_kept};
ghost use Rattle.grasp_model_node.specs.Datagrams.{serves, is_dropped, lowered, own_response, discovery_kept, discovery_heard, after_discovery};
ghost use Rattle.grasp_model_node.specs.Moves.{relay, dial_with};
ghost use Rattle.grasp_model_node.specs.Node.{NodeState};
ghost use Rattle.grasp_model_node.specs.Queue.{other_ways};
ghost use Rattle.grasp_core.specs.Stands.{NodeStands};

use crate::NodeCore;
use grasp_cbor::OutOfMemory;
use grasp_discovery::{Cause, Heard};
use grasp_types::{
    Address, Answer, Flags, Kind, Locator, Locators, Message, Neighbour, Objective, Plain,
};

/// For how many milliseconds this node's own locator may be kept.
const LIFETIME: u32 = 60000;

impl NodeCore {
    /// A discovery comes. After an `Err` all is as before.
    pub(crate) fn discovery_came(
        &mut self,
        cause: Cause,
        neighbour: Neighbour,
        session: u32,
        initiator: Address,
        objective: &Objective,
    ) -> Result<(), OutOfMemory>
        ensures ok { OnOk result
            ((n : NodeState) → NodeStands self.old n
            → NodeStands self.new (after_discovery n cause neighbour session initiator objective.now)) }
        ensures err { OnErr result ((n : NodeState) → NodeStands self.old n → NodeStands self.new n) }
    {
        if self.drops(initiator, objective.flags) {
            return Ok(());
        }
        self.discovery_heard(cause, neighbour, session, initiator, objective)
    }

    /// Whether a discovery of this initiator is dropped that asks for these uses.
    fn drops(&self, initiator: Address, flags: Flags) -> bool
        ensures { (n : NodeState) → NodeStands self.now n → result ≡ is_dropped n initiator flags }
    {
        self.plan.address == initiator || !(flags.has_neg() || flags.has_synch())
    }

    /// Whether what is registered at this node serves what is asked for.
    fn serves(&self, objective: &Objective) -> bool
        ensures { result ≡ serves objective.now.flags (flags_registered self.now.registry objective.now.name) }
    {
        match self.registry.flags_of(&objective.name) {
            Some(flags) => {
                flags.has_disc()
                    && ((flags.has_neg() && objective.flags.has_neg())
                        || (flags.has_synch() && objective.flags.has_synch()))
            }
            None => false,
        }
    }

    /// A discovery of another node comes, which asks for a use.
    fn discovery_heard(
        &mut self,
        cause: Cause,
        neighbour: Neighbour,
        session: u32,
        initiator: Address,
        objective: &Objective,
    ) -> Result<(), OutOfMemory>
        ensures ok { OnOk result ((n : NodeState) → NodeStands self.old n
            → NodeStands self.new (discovery_heard n cause neighbour session initiator objective.now
            (heard_reply n.discoveries (origin_of session initiator)))) }
        ensures err { OnErr result ((n : NodeState) → NodeStands self.old n → NodeStands self.new n) }
    {
        if self.discovery.remembers(session, initiator) {
            return Ok(());
        }
        if self.serves(objective) {
            return self.serve(cause, neighbour.locator, session, initiator, objective);
        }
        self.pass_on(cause, neighbour.locator, session, initiator, objective)
    }

    /// A discovery that is new is answered by this node's own locator.
    fn serve(
        &mut self,
        cause: Cause,
        to: Locator,
        session: u32,
        initiator: Address,
        objective: &Objective,
    ) -> Result<(), OutOfMemory>
        ensures ok { OnOk result ((n : NodeState) → NodeStands self.old n
            → NodeStands self.new (where_new n (dial_with (discovery_kept n cause session initiator objective.now) to
            (own_response n session initiator)) (heard_reply n.discoveries (origin_of session initiator)))) }
        ensures err { OnErr result ((n : NodeState) → NodeStands self.old n → NodeStands self.new n) }
    {
        let response = self.own_response(session, initiator)?;
        self.hear_and_dial(cause, to, session, initiator, objective, &response)
    }

    /// The response that tells this node's own locator.
    fn own_response(&self, session: u32, initiator: Address) -> Result<Message, OutOfMemory>
        ensures { IfOk result (λ response. (n : NodeState) → NodeStands self.now n → response ≡ own_response n session initiator) }
    {
        let locators = Locators::of(self.alloc, self.plan.locator.copy()?)?;
        Ok(Message::Response {
            session,
            initiator,
            ttl: LIFETIME,
            answer: Answer::Locators(locators),
            objective: None,
        })
    }

    /// A discovery that is new and that this node doesn't serve is answered by what is cached, or sent on.
    fn pass_on(
        &mut self,
        cause: Cause,
        to: Locator,
        session: u32,
        initiator: Address,
        objective: &Objective,
    ) -> Result<(), OutOfMemory>
        ensures ok { OnOk result ((n : NodeState) → NodeStands self.old n
            → NodeStands self.new (where_new n (passed_kept n cause to session initiator objective.now (known_at n objective.now))
            (heard_reply n.discoveries (origin_of session initiator)))) }
        ensures err { OnErr result ((n : NodeState) → NodeStands self.old n → NodeStands self.new n) }
    {
        match self
            .discovery
            .known(&objective.name, kind_of(objective.flags), self.reading)
        {
            Ok(Some((locators, ttl))) => {
                let response = Message::Response {
                    session,
                    initiator,
                    ttl,
                    answer: Answer::Divert(locators),
                    objective: None,
                };
                self.hear_and_dial(cause, to, session, initiator, objective, &response)
            }
            Ok(None) => self.relay_on(cause, session, initiator, objective),
            Err(_) => Err(OutOfMemory),
        }
    }

    /// A discovery that is new is sent on where its loop count allows it.
    fn relay_on(
        &mut self,
        cause: Cause,
        session: u32,
        initiator: Address,
        objective: &Objective,
    ) -> Result<(), OutOfMemory>
        ensures ok { OnOk result ((n : NodeState) → NodeStands self.old n
            → NodeStands self.new (where_new n (relayed_kept n cause session initiator objective.now)
            (heard_reply n.discoveries (origin_of session initiator)))) }
        ensures err { OnErr result ((n : NodeState) → NodeStands self.old n → NodeStands self.new n) }
    {
        if objective.loops < 2 {
            let _heard = self.remember(cause, session, initiator, objective)?;
            return Ok(());
        }
        let discovery = lowered_discovery(session, initiator, objective)?;
        self.hear_and_relay(cause, session, initiator, objective, &discovery)
    }

    /// A discovery comes, and where it is new this is sent on a stream of its own.
    fn hear_and_dial(
        &mut self,
        cause: Cause,
        to: Locator,
        session: u32,
        initiator: Address,
        objective: &Objective,
        message: &Message,
    ) -> Result<(), OutOfMemory>
        ensures ok { OnOk result ((n : NodeState) → NodeStands self.old n
            → NodeStands self.new (where_new n (dial_with (discovery_kept n cause session initiator objective.now) to message.now)
            (heard_reply n.discoveries (origin_of session initiator)))) }
        ensures err { OnErr result ((n : NodeState) → NodeStands self.old n → NodeStands self.new n) }
    {
        let ready = self.ready_dial(message)?;
        match self.remember(cause, session, initiator, objective) {
            Ok(Heard::New) => {
                self.dial_ready(to, message, ready);
                Ok(())
            }
            Ok(Heard::Known) => Ok(()),
            Ok(Heard::NoPlace) => Ok(()),
            Err(_) => Err(OutOfMemory),
        }
    }

    /// A discovery comes, and where it is new this is sent to every neighbour of every other link.
    fn hear_and_relay(
        &mut self,
        cause: Cause,
        session: u32,
        initiator: Address,
        objective: &Objective,
        message: &Message,
    ) -> Result<(), OutOfMemory>
        ensures ok { OnOk result ((n : NodeState) → NodeStands self.old n
            → NodeStands self.new (where_new n (relay (discovery_kept n cause session initiator objective.now) message.now
            (other_ways cause.link n.plan.links)) (heard_reply n.discoveries (origin_of session initiator)))) }
        ensures err { OnErr result ((n : NodeState) → NodeStands self.old n → NodeStands self.new n) }
    {
        let ready = self.ready_relay(cause.link, message)?;
        match self.remember(cause, session, initiator, objective) {
            Ok(Heard::New) => {
                self.relay_ready(cause.link, message, ready);
                Ok(())
            }
            Ok(Heard::Known) => Ok(()),
            Ok(Heard::NoPlace) => Ok(()),
            Err(_) => Err(OutOfMemory),
        }
    }

    /// A discovery comes, and is remembered where it is new. After an `Err` all is as before.
    #[tactic(auto, unfolding(grasp_model_node::specs::Moves::with_discoveries))]
    fn remember(
        &mut self,
        cause: Cause,
        session: u32,
        initiator: Address,
        objective: &Objective,
    ) -> Result<Heard, OutOfMemory>
        ensures ok { IfOk result (λ heard. (n : NodeState) → NodeStands self.old n
            → (heard ≡ heard_reply n.discoveries (origin_of session initiator))
            × NodeStands self.new (where_new n (discovery_kept n cause session initiator objective.now) heard)) }
        ensures err { OnErr result ((n : NodeState) → NodeStands self.old n → NodeStands self.new n) }
        ensures queue { self.new.queue ≡ self.old.queue }
        ensures streams { self.new.streams ≡ self.old.streams }
        ensures ways { self.new.ways ≡ self.old.ways }
    {
        self.discovery
            .heard(self.reading, cause, session, initiator, objective)
    }
}

/// The use that a discovery asks for: negotiation where F_NEG is set.
fn kind_of(flags: Flags) -> Kind
    ensures { result ≡ kind_of flags }
{
    if flags.has_neg() {
        Kind::Negotiation
    } else {
        Kind::Synchronization
    }
}

/// A discovery with a loop count less by one.
fn lowered_discovery(
    session: u32,
    initiator: Address,
    objective: &Objective,
) -> Result<Message, OutOfMemory>
    requires { 2 ≤ objective.now.loops }
    ensures { IfOk result (λ message. message ≡ Message.Discovery session initiator (lowered objective.now)) }
{
    let mut objective = objective.copy()?;
    objective.loops -= 1;
    Ok(Message::Discovery {
        session,
        initiator,
        objective,
    })
}
