//! What a delivery makes a node send, made ready before anything changes: so that all is as before where memory is
//! wanted.

ghost use Rattle.std.specs.Prelude.{◌≡◌, ◌<◌, ◌^◌, None, Some, is_some, option_map, [], ◌∷◌, IfOk, IfSome, OnOk, OnErr};
ghost use Rattle.grasp_model_node.specs.Hear.{neighbour_at};
ghost use Rattle.grasp_model_node.specs.Moves.{dial_with, relay, dial_record, queue_up};
ghost use Rattle.grasp_model_node.specs.Node.{NodeState};
ghost use Rattle.grasp_model_node.specs.Queue.{encoding, fits, dial, send, along, other_ways};
ghost use Rattle.grasp_core.specs.Ready.{Dials, Relays, RelayReady, DialReady, PlaceReady, HasPlace};
ghost use Rattle.grasp_core.specs.Stands.{NodeStands, StreamsStand};
ghost use Rattle.grasp_model_node.specs.Streams.{StreamsState, with_dialled, next_stream};

use crate::NodeCore;
use crate::streams::{Stream, Streams};
use crate::ways::{datagrams, other_ways};
use grasp_cbor::{Octets, OutOfMemory};
use grasp_types::{Locator, Message, Neighbour, Output, Plain};
use grasp_wire::{EncodeFault, encoded};
use std::alloc::Global;

/// The encoding of a message that has at most so many bytes.
pub(crate) fn encoding_of(
    alloc: Global,
    message: &Message,
    limit: u32,
) -> Result<Option<Octets>, OutOfMemory>
    ensures bytes { IfOk result (λ bytes. IfSome bytes (λ b. b ≡ encoding message.now)) }
    ensures fits { IfOk result (λ bytes. fits limit message.now ≡ is_some bytes) }
{
    match encoded(alloc, message, limit) {
        Ok(bytes) => Ok(Some(bytes)),
        Err(EncodeFault::TooLong) => Ok(None),
        Err(EncodeFault::OutOfMemory) => Err(OutOfMemory),
    }
}

impl NodeCore {
    /// Makes a message ready that is to be sent on a stream of its own: its encoding, or `None` where it is lost.
    pub(crate) fn ready_dial(&mut self, message: &Message) -> Result<Option<Octets>, OutOfMemory>
        ensures ready { IfOk result (λ bytes. DialReady self.new.queue self.new.streams message.now bytes) }
        ensures place { IfOk result (λ bytes. PlaceReady self.new.streams bytes) }
        ensures stands { (n : NodeState) → NodeStands self.old n → NodeStands self.new n }
    {
        if self.streams.is_dialled_out() {
            return Ok(None);
        }
        self.streams.reserve()?;
        self.dial_bytes(message)
    }

    /// The encoding of a message that can be sent on a stream of its own.
    fn dial_bytes(&self, message: &Message) -> Result<Option<Octets>, OutOfMemory>
        ensures { IfOk result (λ bytes. DialReady self.now.queue self.now.streams message.now bytes) }
    {
        if self.streams.is_dialled_out() {
            return Ok(None);
        }
        if !self.queue.has_room(2) {
            return Ok(None);
        }
        encoding_of(self.alloc, message, self.streams.limit())
    }

    /// Sends a message that was made ready, on a stream of its own, which is closing from the start.
    pub(crate) fn dial_ready(&mut self, to: Locator, message: &Message, bytes: Option<Octets>)
        requires ready { DialReady self.old.queue self.old.streams message.now bytes }
        requires place { PlaceReady self.old.streams bytes }
        ensures { (n : NodeState) → NodeStands self.old n → NodeStands self.new (dial_with n to message.now) }
    {
        match bytes {
            Some(bytes) => self.dial_now(to, message, bytes),
            None => {}
        }
    }

    /// Sends a message on a stream of its own.
    #[tactic(auto, unfolding(grasp_model_node::specs::Moves::dial_record, grasp_model_node::specs::Moves::queue_up))]
    fn dial_now(&mut self, to: Locator, message: &Message, bytes: Octets)
        requires ready { Dials self.old.queue self.old.streams message.now bytes }
        requires place { HasPlace self.old.streams }
        ensures { (n : NodeState) → NodeStands self.old n
            → NodeStands self.new
            (dial_record (queue_up n (dial (next_stream n.streams) to ∷ send (next_stream n.streams) message.now ∷ [])) None) }
    {
        let stream = self.streams.next();
        self.queue.dial(stream, to, message, bytes);
        self.streams.record_closing();
    }

    /// Makes a message ready that is to be sent to every neighbour of every other link: the outputs, or `None` where it is
    /// lost.
    pub(crate) fn ready_relay(
        &self,
        link: u8,
        message: &Message,
    ) -> Result<Option<Vec<Output>>, OutOfMemory>
        ensures { IfOk result (λ outputs. RelayReady self.now.queue self.now.streams self.now.ways.items link message.now
            (option_map (λ o. o.items) outputs)) }
    {
        let ways = other_ways(self.alloc, &self.ways, link)?;
        if !self.queue.has_room(ways.len()) {
            return Ok(None);
        }
        match encoding_of(self.alloc, message, self.streams.limit())? {
            Some(bytes) => Ok(Some(datagrams(self.alloc, &bytes, &ways)?)),
            None => Ok(None),
        }
    }

    /// Sends a message that was made ready to every neighbour of every other link.
    pub(crate) fn relay_ready(&mut self, link: u8, message: &Message, outputs: Option<Vec<Output>>)
        requires { RelayReady self.old.queue self.old.streams self.old.ways.items link message.now (option_map (λ o. o.items) outputs) }
        ensures { (n : NodeState) → NodeStands self.old n → NodeStands self.new (relay n message.now (other_ways link n.plan.links)) }
    {
        match outputs {
            Some(outputs) => self.relay_now(link, message, outputs),
            None => {}
        }
    }

    /// Sends a message to every neighbour of every other link.
    #[tactic(auto, unfolding(grasp_model_node::specs::Moves::queue_up))]
    fn relay_now(&mut self, link: u8, message: &Message, outputs: Vec<Output>)
        requires { Relays self.old.queue self.old.streams self.old.ways.items link message.now outputs.items }
        ensures { (n : NodeState) → NodeStands self.old n → NodeStands self.new (queue_up n (along message.now (other_ways link n.plan.links))) }
    {
        self.queue.append(outputs);
    }

    /// A copy of a neighbour, by the numbers of its link and of its place there.
    pub(crate) fn neighbour(&self, link: u8, from: u8) -> Result<Option<Neighbour>, OutOfMemory>
        ensures { IfOk result (λ neighbour. (n : NodeState) → NodeStands self.now n → neighbour ≡ neighbour_at n link from) }
    {
        let Some(neighbours) = self.plan.links.at(u64::from(link)) else {
            return Ok(None);
        };
        match neighbours.at(u64::from(from)) {
            Some(neighbour) => Ok(Some(neighbour.copy()?)),
            None => Ok(None),
        }
    }
}

impl Streams {
    /// Makes room in memory for one more record. All is as before.
    fn reserve(&mut self) -> Result<(), OutOfMemory>
        ensures stands { (s : StreamsState) → StreamsStand self.old s → StreamsStand self.new s }
        ensures place { OnOk result (HasPlace self.new) }
        ensures limit { self.new.limit ≡ self.old.limit }
    {
        self.held.reserve(1)?;
        Ok(())
    }

    /// The node dials the next stream, which is closing from the start.
    fn record_closing(&mut self)
        requires dialled { self.old.dialled < 2 ^ 62 }
        requires place { HasPlace self.old }
        ensures stands { (s : StreamsState) → StreamsStand self.old s → StreamsStand self.new (with_dialled s None) }
        ensures limit { self.new.limit ≡ self.old.limit }
    {
        let stream = Stream {
            number: 2 * self.dialled,
            from: None,
            cutter: None,
        };
        let Ok(()) = self.held.push(stream) else {
            unreachable!()
        };
        self.dialled += 1;
    }
}
