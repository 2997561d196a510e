//! What a delivery makes a node send: it is sent where all of it has room, and else lost.

ghost use Rattle.std.specs.Prelude.{◌≡◌, ◌+◌, ◌≤◌, true, length, IfOk, OnOk, OnErr};
ghost use Rattle.grasp_model_node.specs.Moves.{may_queue, answer, begin_closing};
ghost use Rattle.grasp_model_node.specs.Node.{NodeState};
ghost use Rattle.grasp_model_node.specs.Queue.{encoding};
ghost use Rattle.grasp_core.specs.Stands.{NodeStands};

use crate::NodeCore;
use grasp_cbor::{Octets, OutOfMemory};
use grasp_types::Message;
use grasp_wire::{encoded, fits};

impl NodeCore {
    /// Answers on a stream. After an `Err` all is as before.
    pub(crate) fn answer(&mut self, stream: u64, message: Message) -> Result<(), OutOfMemory>
        ensures ok { OnOk result ((n : NodeState) → NodeStands self.old n → NodeStands self.new (answer n stream message)) }
        ensures err { OnErr result ((n : NodeState) → NodeStands self.old n → NodeStands self.new n) }
    {
        self.queue_answer(stream, &message)
    }

    /// A stream begins closing.
    #[tactic(auto, unfolding(grasp_model_node::specs::Moves::begin_closing))]
    pub(crate) fn begin_closing(&mut self, stream: u64)
        ensures { (n : NodeState) → NodeStands self.old n → NodeStands self.new (begin_closing n stream) }
    {
        self.streams.close(stream);
    }

    /// Whether a message fits, and so many outputs have room.
    fn may_queue(&self, message: &Message, count: usize) -> bool
        ensures answer { (n : NodeState) → NodeStands self.now n → result ≡ may_queue n message.now count }
        ensures room { result ≡ true → length self.now.queue + count ≤ 256 }
    {
        fits(message, self.streams.limit()) && self.queue.has_room(count)
    }

    /// The encoding of a message that fits.
    fn encoding(&self, message: &Message) -> Result<Octets, OutOfMemory>
        ensures { IfOk result (λ bytes. bytes ≡ encoding message.now) }
    {
        match encoded(self.alloc, message, self.streams.limit()) {
            Ok(bytes) => Ok(bytes),
            Err(_) => Err(OutOfMemory),
        }
    }

    /// Queues an answer, where it may be.
    #[tactic(auto, unfolding(grasp_model_node::specs::Moves::queue_up))]
    fn queue_answer(&mut self, stream: u64, message: &Message) -> Result<(), OutOfMemory>
        ensures ok { OnOk result ((n : NodeState) → NodeStands self.old n → NodeStands self.new (answer n stream message.now)) }
        ensures err { OnErr result ((n : NodeState) → NodeStands self.old n → NodeStands self.new n) }
    {
        if !self.may_queue(message, 1) {
            return Ok(());
        }
        let bytes = self.encoding(message)?;
        self.queue.send(stream, message, bytes);
        Ok(())
    }
}
