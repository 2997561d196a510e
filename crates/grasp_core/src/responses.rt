//! A response to a discovery, which puts its locators into the cache, and which is sent on where another node asked.

ghost use Rattle.std.specs.Prelude.{◌≡◌, IfOk, OnOk, OnErr};
ghost use Rattle.grasp_core.specs.First.{response_heard, with_response};
ghost use Rattle.grasp_model_node.specs.Hear.{hear_response, answered_with, dial_neighbour, neighbour_at};
ghost use Rattle.grasp_model_node.specs.Moves.{dial_with};
ghost use Rattle.grasp_model_node.specs.Node.{NodeState};
ghost use Rattle.grasp_core.specs.Stands.{NodeStands};

use crate::NodeCore;
use grasp_cbor::OutOfMemory;
use grasp_discovery::{Answered, Cause};
use grasp_types::{Address, Answer, Locator, Locators, Message};

impl NodeCore {
    /// A response comes on a stream, which shuts. After an `Err` all is as before.
    pub(crate) fn response(&mut self, response: Message) -> Result<bool, OutOfMemory>
        ensures ok { IfOk result (λ stays. (n : NodeState) → NodeStands self.old n
            → (stays ≡ (response_heard n response).is_open) × NodeStands self.new (response_heard n response).node) }
        ensures err { OnErr result ((n : NodeState) → NodeStands self.old n → NodeStands self.new n) }
    {
        match &response {
            Message::Response {
                session,
                initiator,
                ttl,
                answer,
                ..
            } => {
                self.hear_response(*session, *initiator, *ttl, answer, &response)?;
                Ok(false)
            }
            _ => Err(OutOfMemory),
        }
    }

    /// A response comes: it is cached where it was asked for, and sent on where another node asked.
    fn hear_response(
        &mut self,
        session: u32,
        initiator: Address,
        ttl: u32,
        answer: &Answer,
        response: &Message,
    ) -> Result<(), OutOfMemory>
        ensures ok { OnOk result
            ((n : NodeState) → NodeStands self.old n
            → NodeStands self.new (hear_response n session initiator ttl answer.now response.now).node) }
        ensures err { OnErr result ((n : NodeState) → NodeStands self.old n → NodeStands self.new n) }
    {
        match self.discovery.asker(self.plan.address, session, initiator) {
            Answered::Relay(cause) => {
                self.send_on(cause, session, initiator, ttl, answer, response)
            }
            Answered::Mine => self.keep(session, initiator, ttl, answer),
            Answered::Stranger => self.keep(session, initiator, ttl, answer),
        }
    }

    /// Puts the locators of a response into the cache, where it was asked for. After an `Err` all is as before.
    #[tactic(auto, unfolding(crate::specs::First::with_response, grasp_model_node::specs::Moves::with_discoveries))]
    fn keep(
        &mut self,
        session: u32,
        initiator: Address,
        ttl: u32,
        answer: &Answer,
    ) -> Result<(), OutOfMemory>
        ensures ok { OnOk result ((n : NodeState) → NodeStands self.old n → NodeStands self.new (with_response n session initiator ttl answer.now)) }
        ensures err { OnErr result ((n : NodeState) → NodeStands self.old n → NodeStands self.new n) }
        ensures queue { self.new.queue ≡ self.old.queue }
        ensures streams { self.new.streams ≡ self.old.streams }
    {
        let _answered = self.discovery.answered(
            self.reading,
            self.plan.address,
            session,
            initiator,
            ttl,
            locators_in(answer),
        )?;
        Ok(())
    }

    /// A response for which this neighbour asked is sent on to it.
    fn send_on(
        &mut self,
        cause: Cause,
        session: u32,
        initiator: Address,
        ttl: u32,
        answer: &Answer,
        response: &Message,
    ) -> Result<(), OutOfMemory>
        ensures ok { OnOk result ((n : NodeState) → NodeStands self.old n
            → NodeStands self.new (dial_neighbour (with_response n session initiator ttl answer.now)
            (neighbour_at n cause.link cause.from) response.now)) }
        ensures err { OnErr result ((n : NodeState) → NodeStands self.old n → NodeStands self.new n) }
    {
        match self.neighbour(cause.link, cause.from) {
            Ok(Some(neighbour)) => self.send_on_to(
                neighbour.locator,
                session,
                initiator,
                ttl,
                answer,
                response,
            ),
            Ok(None) => self.keep(session, initiator, ttl, answer),
            Err(_) => Err(OutOfMemory),
        }
    }

    /// A response is sent on to this locator.
    fn send_on_to(
        &mut self,
        to: Locator,
        session: u32,
        initiator: Address,
        ttl: u32,
        answer: &Answer,
        response: &Message,
    ) -> Result<(), OutOfMemory>
        ensures ok { OnOk result ((n : NodeState) → NodeStands self.old n
            → NodeStands self.new (dial_with (with_response n session initiator ttl answer.now) to response.now)) }
        ensures err { OnErr result ((n : NodeState) → NodeStands self.old n → NodeStands self.new n) }
    {
        let ready = self.ready_dial(response)?;
        self.keep(session, initiator, ttl, answer)?;
        self.dial_ready(to, response, ready);
        Ok(())
    }
}

/// The locators of an answer, diverted or not.
fn locators_in(answer: &Answer) -> &Locators
    ensures { result.now ≡ answered_with answer.now }
{
    match answer {
        Answer::Locators(locators) => locators,
        Answer::Divert(locators) => locators,
    }
}
