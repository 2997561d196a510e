//! What a node has queued to go out.

ghost use Rattle.std.specs.Prelude.{◌≡◌, ◌+◌, ◌≤◌, true, [], ◌∷◌, ◌++◌, List, length, take, drop, IfOk, OnErr};
ghost use Rattle.grasp_model_node.specs.Queue.{Queued, send, dial, encoding, has_room};
ghost use Rattle.grasp_core.specs.Stands.{QueueStands};

use grasp_cbor::{Octets, OutOfMemory};
use grasp_types::{Locator, Message, Output, Outputs, Plain};
use std::alloc::Global;
use std::marker::Model;

/// How many outputs are queued at most.
const MOST_QUEUED: usize = 256;

/// The queued outputs, at most 256, whose memory is taken at the beginning.
#[derive(Drop)]
pub(crate) struct Queue {
    held: Vec<Output>,
}

impl Model for Queue {
    ghost use Rattle.std.specs.Prelude.{List, ◌≤◌};
    ghost use Rattle.std.specs.Vec.{vec_capacity};
    ghost use Rattle.grasp_types.specs.declared.traffic.Output.{Output};

    ghost Value = { List Output };

    ghost view = { λ a. a.held.items };

    ghost invariant = { λ a. 256 ≤ vec_capacity a.held };
}

impl Queue {
    /// Nothing is queued.
    pub(crate) fn new(alloc: Global) -> Result<Queue, OutOfMemory>
        ensures { IfOk result (λ queue. queue ≡ []) }
    {
        Ok(Queue {
            held: Vec::with_capacity(alloc, MOST_QUEUED)?,
        })
    }

    /// How many outputs are queued.
    pub(crate) fn len(&self) -> usize
        ensures { result ≡ length self.now }
    {
        self.held.len()
    }

    /// Whether so many more can be queued.
    pub(crate) fn has_room(&self, count: usize) -> bool
        ensures answer { (queue : List Queued) → QueueStands self.now queue → result ≡ has_room queue count }
        ensures room { result ≡ true → length self.now + count ≤ 256 }
    {
        count <= MOST_QUEUED && self.held.len() <= MOST_QUEUED - count
    }

    /// Queues one output.
    pub(crate) fn push(&mut self, output: Output)
        requires { length self.old + 1 ≤ 256 }
        ensures { self.new ≡ self.old ++ output ∷ [] }
    {
        let Ok(()) = self.held.push(output) else {
            unreachable!()
        };
    }

    /// Queues these outputs.
    pub(crate) fn append(&mut self, mut outputs: Vec<Output>)
        requires { length self.old + length outputs.items ≤ 256 }
        ensures { self.new ≡ self.old ++ outputs.items }
    {
        let Ok(()) = self.held.append(&mut outputs) else {
            unreachable!()
        };
    }

    /// Queues a message for a stream, with its encoding.
    pub(crate) fn send(&mut self, stream: u64, message: &Message, bytes: Octets)
        requires room { length self.old + 1 ≤ 256 }
        requires bytes { bytes ≡ encoding message.now }
        ensures { (queue : List Queued) → QueueStands self.old queue → QueueStands self.new (queue ++ send stream message.now ∷ []) }
    {
        self.push(Output::Send { stream, bytes });
    }

    /// Queues a dial, and a message for the stream, with its encoding.
    pub(crate) fn dial(&mut self, stream: u64, to: Locator, message: &Message, bytes: Octets)
        requires room { length self.old + 2 ≤ 256 }
        requires bytes { bytes ≡ encoding message.now }
        ensures { (queue : List Queued) → QueueStands self.old queue → QueueStands self.new (queue ++ dial stream to ∷ send stream message.now ∷ []) }
    {
        self.push(Output::Dial { stream, to });
        self.push(Output::Send { stream, bytes });
    }

    /// Copies of the first outputs, at most so many. It takes no memory for none.
    pub(crate) fn first(&self, alloc: Global, max: usize) -> Result<Outputs, OutOfMemory>
        ensures taken { IfOk result (λ outputs. outputs ≡ take max self.now) }
        ensures wanted { OnErr result (1 ≤ length (take max self.now)) }
    {
        let count = max.min(self.held.len());
        let mut outputs = Outputs::new(alloc);
        for output in &self.held[..count] {
            outputs.push(output.copy()?)?;
        }
        Ok(outputs)
    }

    /// Removes the first outputs, at most so many.
    pub(crate) fn skip(&mut self, max: usize)
        ensures { self.new ≡ drop max self.old }
    {
        let count = max.min(self.held.len());
        self.held.drain(..count);
    }
}
