//! One step of a node.

ghost use Rattle.grasp_core.specs.Contract.{Meeting, Meets, MeetsInput, Acted, Stepped, GivesCall};
ghost use Rattle.grasp_model_node.specs.Node.{NodeState};
ghost use Rattle.grasp_core.specs.Stands.{NodeStands};

use crate::NodeCore;
use grasp_types::{Call, Input, Reply};

impl NodeCore {
    /// One step: the reading becomes the larger of this one and the last, what has come to its end by it ends, and then
    /// the input is answered, at once.
    ///
    /// Want of memory is the one free answer; after it the node is as the input's part of the definition says. Closings,
    /// and drains that have nothing to give, take no memory.
    #[tactic(auto, using(crate::proofs::Acting::acted_steps))]
    pub fn step(&mut self, now: u64, input: Input) -> Reply
        ensures { (x : Meeting) → Meets self.old now input x → Stepped self.new now input x result }
    {
        self.begin(now);
        self.act(input)
    }

    /// Answers an input of a step that has begun.
    #[tactic(auto, using(crate::proofs::Acting::call_acts))]
    fn act(&mut self, input: Input) -> Reply
        ensures { (x : Meeting) → MeetsInput self.old input x → Acted self.new input x result }
    {
        match input {
            Input::Api { asa, call } => self.api(asa, call),
            Input::Datagram { link, from, bytes } => self.datagram(link, from, bytes.bytes()),
            Input::Opened { stream, from } => self.opened(stream, from),
            Input::Bytes { stream, bytes } => self.bytes(stream, bytes.bytes()),
            Input::Closed { stream } => self.closed(stream),
            Input::Drain { max } => self.drain(max),
        }
    }

    /// Replies to a call of an agent.
    fn api(&mut self, asa: u32, call: Call) -> Reply
        ensures { (n : NodeState) → NodeStands self.old n → GivesCall self.new n asa call result }
    {
        match self.call(asa, call) {
            Ok(answer) => Reply::Api(answer),
            Err(refused) => Reply::Refused(refused),
        }
    }
}
