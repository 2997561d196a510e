//! What nodes of a network send.

ghost use Rattle.std.specs.Prelude.{◌≡◌, ◌+◌, length, min, OnOk, IfOk};
ghost use Rattle.grasp_model_network.specs.Plans.{IsNode};
ghost use Rattle.grasp_simulator.specs.Lending.{LendsOutputs};
ghost use Rattle.grasp_simulator.specs.Sends.{Posts, Puts, HandsOver, Sends, SendsBehind};
ghost use Rattle.grasp_simulator.specs.WorldStands.{most_count};

use crate::marks::is_marked;
use crate::parcel::Parcel;
use crate::ways::way_to;
use crate::world::World;
use grasp_cbor::{Octets, OutOfMemory};
use grasp_laws_delivery::streams_are_ready;
use grasp_types::{Output, Outputs, Plain};

/// So many outputs are sent behind an event.
const EVENT_DRAIN: u32 = 256;

impl World {
    /// At most so many outputs of a node are sent, which are given. After an `Err` nothing is said of the network but that it has as
    /// many nodes.
    pub(crate) fn give(&mut self, node: u8, max: u32) -> Result<Outputs, OutOfMemory>
        requires { IsNode (length self.old.seats.items) node }
        ensures sends { IfOk result (λ outputs. Sends self.old self.new node max (length outputs)) }
        ensures gives { IfOk result (λ outputs. LendsOutputs self.old node max outputs) }
        ensures count { length self.new.seats.items ≡ length self.old.seats.items }
        ensures notes { self.new.notes ≡ self.old.notes }
    {
        streams_are_ready();
        let life = self.seats[usize::from(node - 1)].life;
        let outputs = self.seats[usize::from(node - 1)].drain(max)?;
        self.hand_over(node, life, outputs.slice())?;
        Ok(outputs)
    }

    /// At most so many outputs of a node are sent. The answer is how many. After an `Err` nothing is said of the network but that
    /// it has as many nodes.
    pub(crate) fn send(&mut self, node: u8, max: u32) -> Result<u64, OutOfMemory>
        requires { IsNode (length self.old.seats.items) node }
        ensures sends { IfOk result (λ count. Sends self.old self.new node max count) }
        ensures count { length self.new.seats.items ≡ length self.old.seats.items }
        ensures notes { self.new.notes ≡ self.old.notes }
    {
        Ok(self.give(node, max)?.len())
    }

    /// Outputs of the node of an event are sent, unless it is held.
    pub(crate) fn send_behind(&mut self, node: u8, hold: bool) -> Result<(), OutOfMemory>
        requires { IsNode (length self.old.seats.items) node }
        ensures sends { OnOk result (SendsBehind self.old self.new node hold) }
        ensures count { length self.new.seats.items ≡ length self.old.seats.items }
        ensures notes { self.new.notes ≡ self.old.notes }
    {
        if !hold {
            let _sent = self.send(node, EVENT_DRAIN)?;
        }
        Ok(())
    }

    /// These outputs of a node's present life are sent in order.
    fn hand_over(&mut self, node: u8, life: u64, outputs: &[Output]) -> Result<(), OutOfMemory>
        ensures hands { OnOk result (HandsOver self.old self.new node life outputs.now) }
        ensures count { length self.new.seats.items ≡ length self.old.seats.items }
        ensures notes { self.new.notes ≡ self.old.notes }
    {
        for output in outputs {
            self.put(node, life, output)?;
        }
        Ok(())
    }

    /// This output of a node's present life is sent.
    fn put(&mut self, node: u8, life: u64, output: &Output) -> Result<(), OutOfMemory>
        ensures puts { OnOk result (Puts self.old self.new node life output.now) }
        ensures count { length self.new.seats.items ≡ length self.old.seats.items }
        ensures notes { self.new.notes ≡ self.old.notes }
    {
        match output {
            Output::Datagram { link, to, bytes } => self.post(node, *link, *to, bytes),
            Output::Dial { stream, to } => {
                if self.streams.is_full() {
                    return Err(OutOfMemory);
                }
                let marks = self.marks.slice();
                let closed = is_marked(marks, life, *stream, self.plan.nodes, to);
                self.streams.dial(life, *stream, to.copy()?, closed)
            }
            Output::Send { stream, bytes } => {
                self.streams.send(life, *stream, bytes.bytes())?;
                self.add(bytes.len());
                Ok(())
            }
            Output::Close { stream } => {
                self.streams.close(life, *stream);
                Ok(())
            }
        }
    }

    /// A datagram with these bytes goes along the node's way, where there is one.
    fn post(&mut self, node: u8, link: u8, to: u8, bytes: &Octets) -> Result<(), OutOfMemory>
        ensures posts { OnOk result (Posts self.old self.new node link to bytes.now) }
        ensures count { length self.new.seats.items ≡ length self.old.seats.items }
        ensures notes { self.new.notes ≡ self.old.notes }
    {
        let alloc = self.streams.allocator();
        let Some(way) = way_to(alloc, self.plan.links.slice(), node, link, to)? else {
            return Ok(());
        };
        self.parcels.push(Parcel {
            receiver: way.receiver,
            link: way.link,
            from: way.from,
            bytes: bytes.copy()?,
        })?;
        self.add(bytes.len());
        Ok(())
    }

    /// So many bytes more were sent.
    fn add(&mut self, bytes: u64)
        ensures { self.new ≡ record self.old { sent = min (self.old.sent + bytes) most_count } }
    {
        self.sent = self.sent.saturating_add(bytes);
    }
}
