//! What a call of an agent is to send, made ready before anything changes.

ghost use Rattle.std.specs.Prelude.{◌≡◌, ◌≤◌, ◌+◌, length, map, List, IfOk};
ghost use Rattle.grasp_model_node.specs.FloodCalls.{count_all};
ghost use Rattle.grasp_model_node.specs.Moves.{with_draw, queue_up};
ghost use Rattle.grasp_model_node.specs.Node.{NodeState};
ghost use Rattle.grasp_core.specs.Outgoing.{IsReady};
ghost use Rattle.grasp_model_node.specs.Queue.{Queued, fits, output_of, along, all_ways};
ghost use Rattle.grasp_core.specs.Stands.{NodeStands};
ghost use Rattle.grasp_model_node.specs.Tests.{sending};

use crate::NodeCore;
use crate::ways::datagrams;
use grasp_cbor::OutOfMemory;
use grasp_types::{ApiRefused, Message, Output};
use grasp_wire::encoded;

impl NodeCore {
    /// Whether a message is short enough to be sent.
    pub(crate) fn short_enough(&self, message: &Message) -> bool
        ensures { (n : NodeState) → NodeStands self.now n → result ≡ fits n.plan.limit message.now }
    {
        grasp_wire::fits(message, self.streams.limit())
    }

    /// A datagram with this message to every neighbour of every link.
    #[tactic(auto, using(crate::proofs::Spreading::along_outputs))]
    pub(crate) fn datagrams_for(&self, message: &Message) -> Result<Vec<Output>, OutOfMemory>
        ensures outputs { IfOk result
            (λ outputs. (n : NodeState) → NodeStands self.now n
            → outputs.items ≡ map output_of (along message.now (all_ways n.plan.links))) }
        ensures count { IfOk result (λ outputs. length outputs.items ≡ length self.now.ways.items) }
    {
        let Ok(bytes) = encoded(self.alloc, message, self.streams.limit()) else {
            return Err(OutOfMemory);
        };
        match datagrams(self.alloc, &bytes, &self.ways) {
            Ok(outputs) => Ok(outputs),
            Err(_) => Err(OutOfMemory),
        }
    }

    /// The same, where the message and its datagrams can be sent.
    pub(crate) fn ready_datagrams(&self, message: &Message) -> Result<Vec<Output>, ApiRefused>
        ensures outputs { IfOk result
            (λ outputs. (n : NodeState) → NodeStands self.now n
            → outputs.items ≡ map output_of (along message.now (all_ways n.plan.links))) }
        ensures room { IfOk result (λ outputs. length self.now.queue + length outputs.items ≤ 256) }
        ensures reply { (n : NodeState) → NodeStands self.now n → IsReady (sending n message.now (count_all n)) result }
    {
        self.may_send(self.short_enough(message), self.ways.len())?;
        match self.datagrams_for(message) {
            Ok(outputs) => Ok(outputs),
            Err(_) => Err(ApiRefused::OutOfMemory),
        }
    }

    /// One word is drawn, and these outputs are queued.
    pub(crate) fn send_datagrams(&mut self, outputs: Vec<Output>)
        requires { length self.old.queue + length outputs.items ≤ 256 }
        ensures { (queue : List Queued) → outputs.items ≡ map output_of queue → (n : NodeState) → NodeStands self.old n
            → NodeStands self.new (queue_up (with_draw n) queue) }
    {
        self.draws.draw();
        self.queue.append(outputs);
    }
}
