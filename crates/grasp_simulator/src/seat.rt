//! A node of a network with its agent.

ghost use Rattle.std.specs.Prelude.{◌≡◌, ◌≤◌, Contains, IfOk, OnOk, option_map, option_to_list};
ghost use Rattle.grasp_agent.specs.Calls.{next_call};
ghost use Rattle.grasp_agent.specs.Replies.{want_reply, return_reply, after_reply};
ghost use Rattle.grasp_laws_node_stories.specs.Acceptances.{accepts_on, was_done};
ghost use Rattle.grasp_model_node.specs.Begin.{begin};
ghost use Rattle.grasp_model_node.specs.Draining.{drained};
ghost use Rattle.grasp_session.specs.Sessions.{state_reply};
ghost use Rattle.grasp_simulator.specs.Seats.{SeatStands, Sitting, SeatMeets, SeatStepped, AgentStepped, clocked, drained_seat, wanted, returning};
ghost use Rattle.grasp_simulator.specs.Seats.{settled, is_asked, OwnStepped, CallStepped, stream_begun, accepted_if};
ghost use Rattle.grasp_types.specs.declared.traffic.Input.TheVariants as input;
ghost use Rattle.grasp_model_network.specs.Visits.{is_starved};
ghost use Rattle.grasp_model_network.specs.World.{Seat as SeatState};

use crate::notes::{Begun, Offering};
use grasp_agent::{Agent, PrefixAgent, ReturnFault, WantFault};
use grasp_cbor::OutOfMemory;
use grasp_core::NodeCore;
use grasp_types::{
    ApiAnswer, ApiRefused, Call, Input, Locator, Outputs, Plain, Prefix, Reply, Verdict,
};

/// A prefix that is just offered, and the number of the stream on which it is.
#[derive(Clone, Copy, Debug, PartialEq, Eq)]
pub(crate) struct BegunOn {
    pub(crate) prefix: Prefix,
    pub(crate) stream: Option<u64>,
}

/// A call of an agent and its reply, what the agent has just begun to offer, and the stream on which the call has accepted.
#[derive(Drop)]
pub(crate) struct OwnStep {
    pub(crate) call: Call,
    pub(crate) reply: Reply,
    pub(crate) begun: Option<BegunOn>,
    pub(crate) accepted: Option<u64>,
}

/// A node in its present life, and its agent.
#[derive(Drop)]
pub(crate) struct Seat {
    /// The number of this life among those of all nodes.
    pub(crate) life: u64,
    pub(crate) core: NodeCore,
    pub(crate) agent: PrefixAgent,
}

impl Seat {
    /// A step of the node at its own reading.
    pub(crate) fn step(&mut self, input: Input) -> Reply
        ensures steps { (x : Sitting) → SeatMeets self.old input x → SeatStepped self.new input x result }
        ensures agent { self.new.agent ≡ self.old.agent }
        ensures life { self.new.life ≡ self.old.life }
    {
        let now = self.core.now();
        self.core.step(now, input)
    }

    /// The agent makes its next call, at the node's own reading, and takes the reply. An `Err` is want of memory, and nothing
    /// is said of the seat after it.
    pub(crate) fn agent_step(&mut self) -> Result<(Call, Reply), OutOfMemory>
        ensures steps { IfOk result (λ made. (x : Sitting) → SeatStands self.old x.seat → AgentStepped self.new x made.0 made.1) }
        ensures life { self.new.life ≡ self.old.life }
    {
        let call = self.agent.next()?;
        let reply = self.make(&call)?;
        Ok((call, reply))
    }

    /// The agent makes this call, its next one, and takes the reply. An `Err` is want of memory, and nothing is said of the seat
    /// after it.
    fn make(&mut self, call: &Call) -> Result<Reply, OutOfMemory>
        requires { call.now ≡ next_call self.old.agent }
        ensures steps { IfOk result (λ reply. (x : Sitting) → SeatStands self.old x.seat → AgentStepped self.new x call.now reply) }
        ensures agent { IfOk result (λ reply. self.new.agent ≡ after_reply self.old.agent reply) }
        ensures life { self.new.life ≡ self.old.life }
    {
        let made = call.copy()?;
        let asa = self.agent.asa();
        let reply = self.step(Input::Api { asa, call: made });
        if is_starved(&reply) {
            return Err(OutOfMemory);
        }
        self.agent.take(&reply);
        Ok(reply)
    }

    /// The agent makes its next call and takes the reply. It is told what the agent has just begun to offer, and where the call
    /// has accepted. An `Err` is want of memory, and nothing is said of the seat after it.
    pub(crate) fn own_step(&mut self) -> Result<OwnStep, OutOfMemory>
        ensures steps { IfOk result (λ made. (x : Sitting) → SeatStands self.old x.seat → OwnStepped self.new x made) }
        ensures life { self.new.life ≡ self.old.life }
    {
        // What is read of the pool tells that the agent is kept.
        let _pool = self.agent.pool();
        let before = Offering::of(&self.agent);
        let call = self.agent.next()?;
        let accepts = self.accepts_on(&call);
        let reply = self.make(&call)?;
        let after = Offering::of(&self.agent);
        let begun = self.begun_on(before.begun(&after, &call, &reply));
        let accepted = accepted_if(accepts, was_done(&reply));
        Ok(OwnStep {
            call,
            reply,
            begun,
            accepted,
        })
    }

    /// What has just begun, with the stream of its session.
    fn begun_on(&self, begun: Option<Begun>) -> Option<BegunOn>
        ensures { (s : SeatState) → SeatStands self.now s → result ≡ option_map (stream_begun s.core) begun }
    {
        let begun = begun?;
        Some(BegunOn {
            prefix: begun.prefix,
            stream: self.core.stream(begun.handle),
        })
    }

    /// Another agent of the node makes a call, at the node's own reading. It is told where the call has accepted.
    pub(crate) fn call_step(&mut self, asa: u32, call: Call) -> (Reply, Option<u64>)
        ensures steps { (x : Sitting) → SeatMeets self.old (input.Api asa call) x → CallStepped self.new asa call x result.0 result.1 }
        ensures life { self.new.life ≡ self.old.life }
    {
        let accepts = self.accepts_on(&call);
        let reply = self.step(Input::Api { asa, call });
        let accepted = accepted_if(accepts, was_done(&reply));
        (reply, accepted)
    }

    /// The stream on which the node accepts by this call, if that is done.
    fn accepts_on(&self, call: &Call) -> Option<u64>
        ensures { (s : SeatState) → SeatStands self.now s → option_to_list result ≡ accepts_on s.core call.now }
    {
        match call {
            Call::EndNegotiate {
                handle,
                verdict: Verdict::Accept,
            } => self.core.stream(*handle),
            _ => None,
        }
    }

    /// The node steps at this reading or its own, whichever is larger, which it answers. It takes no memory.
    pub(crate) fn clock(&mut self, millis: u64) -> u64
        ensures reading { (s : SeatState) → SeatStands self.old s → result ≡ (clocked s millis).core.reading }
        ensures stands { (s : SeatState) → SeatStands self.old s → SeatStands self.new (clocked s millis) }
        ensures life { self.new.life ≡ self.old.life }
    {
        let _drained = self.core.step(millis, Input::Drain { max: 0 });
        self.core.now()
    }

    /// At most so many outputs of the node, at its own reading. After an `Err` nothing is said of the seat.
    pub(crate) fn drain(&mut self, max: u32) -> Result<Outputs, OutOfMemory>
        ensures outputs { IfOk result (λ outputs. (s : SeatState) → SeatStands self.old s → outputs ≡ drained (begin s.core s.core.reading) max) }
        ensures stands { OnOk result ((s : SeatState) → SeatStands self.old s → SeatStands self.new (drained_seat s max)) }
        ensures life { self.new.life ≡ self.old.life }
    {
        match self.step(Input::Drain { max }) {
            Reply::Outputs(outputs) => Ok(outputs),
            _ => Err(OutOfMemory),
        }
    }

    /// Has the agent want a prefix of this length, or of one up to the longest, from the peer. It takes no memory.
    pub(crate) fn want(&mut self, length: u8, longest: u8, peer: Locator) -> Result<(), WantFault>
        requires least { 1 ≤ length }
        requires ordered { length ≤ longest }
        requires most { longest ≤ 128 }
        ensures reply { (s : SeatState) → SeatStands self.old s → result ≡ want_reply s.agent }
        ensures stands { (s : SeatState) → SeatStands self.old s → SeatStands self.new (wanted s length longest peer) }
        ensures life { self.new.life ≡ self.old.life }
    {
        self.agent.want(length, longest, peer)
    }

    /// Has the agent give this prefix back to the peer, where it holds all of it. It takes no memory.
    pub(crate) fn hand_back(&mut self, prefix: Prefix, peer: Locator) -> Result<(), ReturnFault>
        ensures reply { (s : SeatState) → SeatStands self.old s → result ≡ return_reply s.agent prefix }
        ensures stands { (s : SeatState) → SeatStands self.old s → SeatStands self.new (returning s prefix peer) }
        ensures life { self.new.life ≡ self.old.life }
    {
        self.agent.hand_back(prefix, peer)
    }

    /// The agent has a prefix free again that it has in doubt. It takes no memory.
    pub(crate) fn settle(&mut self, prefix: Prefix)
        requires { Contains self.old.agent.pool.doubtful prefix }
        ensures stands { (s : SeatState) → SeatStands self.old s → SeatStands self.new (settled s prefix) }
        ensures life { self.new.life ≡ self.old.life }
    {
        self.agent.settle(prefix);
    }

    /// Whether a live session of the node on this stream has no outcome.
    pub(crate) fn goes_on(&self, stream: u64) -> bool
        ensures { (s : SeatState) → SeatStands self.now s → result ≡ is_asked (state_reply s.core.sessions stream) }
    {
        match self.core.state(stream) {
            Some((_, over)) => !over,
            None => false,
        }
    }
}

/// Whether the reply tells of want of memory, which stops the network.
pub(crate) fn is_starved(reply: &Reply) -> bool
    ensures { result ≡ is_starved reply.now }
{
    match reply {
        Reply::Refused(refused) => *refused == ApiRefused::OutOfMemory,
        Reply::OutOfMemory => true,
        _ => false,
    }
}

/// Whether the call was done.
fn was_done(reply: &Reply) -> bool
    ensures { result ≡ was_done reply.now }
{
    match reply {
        Reply::Api(ApiAnswer::Done) => true,
        _ => false,
    }
}

/// The stream on which a call has accepted, where it was done.
fn accepted_if(stream: Option<u64>, done: bool) -> Option<u64>
    ensures { result ≡ accepted_if done stream }
{
    if done { stream } else { None }
}
