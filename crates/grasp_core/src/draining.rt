//! What goes out of a node.

ghost use Rattle.std.specs.Prelude.{◌≡◌, ◌≤◌, ◌++◌, length, map, take, IfOk, OnOk, OnErr};
ghost use Rattle.grasp_types.specs.declared.traffic.Output.TheVariants as output;
ghost use Rattle.grasp_core.specs.Contract.{GivesDrain};
ghost use Rattle.grasp_model_node.specs.Draining.{closes, drained, after_drain};
ghost use Rattle.grasp_model_node.specs.Node.{NodeState};
ghost use Rattle.grasp_core.specs.Stands.{NodeStands};

use crate::NodeCore;
use grasp_cbor::OutOfMemory;
use grasp_types::{Output, Outputs, Reply};

impl NodeCore {
    /// Gives at most so many outputs: the queued ones in order, and, once none is queued, the closings of the streams
    /// that are closing, by rising number. It takes no memory where there is nothing to give. After `OutOfMemory` all is
    /// as before.
    pub(crate) fn drain(&mut self, max: u32) -> Reply
        ensures { (n : NodeState) → NodeStands self.old n → GivesDrain self.new max n result }
    {
        match self.give(max) {
            Ok(outputs) => Reply::Outputs(outputs),
            Err(OutOfMemory) => Reply::OutOfMemory,
        }
    }

    /// Gives at most so many outputs. What was given isn't queued any more, and a stream whose closing was given has no
    /// record any more. After an `Err` all is as before.
    fn give(&mut self, max: u32) -> Result<Outputs, OutOfMemory>
        ensures outputs { IfOk result (λ outputs. (n : NodeState) → NodeStands self.old n → outputs ≡ drained n max) }
        ensures ok { OnOk result ((n : NodeState) → NodeStands self.old n → NodeStands self.new (after_drain n max)) }
        ensures err { OnErr result ((n : NodeState) → NodeStands self.old n → NodeStands self.new n) }
        ensures wanted { OnErr result ((n : NodeState) → NodeStands self.old n → 1 ≤ length (drained n max)) }
    {
        let numbers = self.closes(max)?;
        let outputs = self.outputs(max, &numbers)?;
        self.let_go(max, &numbers);
        Ok(outputs)
    }

    /// The numbers of the streams that a drain of so many closes.
    fn closes(&self, max: u32) -> Result<Vec<u64>, OutOfMemory>
        ensures is { IfOk result (λ numbers. (n : NodeState) → NodeStands self.now n → numbers.items ≡ closes n max) }
        ensures count { IfOk result (λ numbers. length numbers.items ≤ max) }
        ensures wanted { OnErr result ((n : NodeState) → NodeStands self.now n → 1 ≤ length (closes n max)) }
    {
        let queued = self.queue.len();
        let max = max as usize;
        if max <= queued {
            return Ok(Vec::new(self.alloc));
        }
        let mut numbers = self.streams.closing_numbers()?;
        numbers.truncate(max - queued);
        Ok(numbers)
    }

    /// The first queued outputs, at most so many, and the closings of these streams behind them.
    fn outputs(&self, max: u32, numbers: &[u64]) -> Result<Outputs, OutOfMemory>
        requires { length numbers.now ≤ max }
        ensures are { IfOk result (λ outputs. outputs ≡ take max self.now.queue ++ map output.Close numbers.now) }
        ensures wanted { OnErr result (1 ≤ length (take max self.now.queue ++ map output.Close numbers.now)) }
    {
        let mut outputs = self.queue.first(self.alloc, max as usize)?;
        push_closings(&mut outputs, numbers)?;
        Ok(outputs)
    }

    /// The first outputs, at most so many, aren't queued any more, and these streams have no record any more.
    fn let_go(&mut self, max: u32, numbers: &[u64])
        ensures { (n : NodeState) → NodeStands self.old n → numbers.now ≡ closes n max → NodeStands self.new (after_drain n max) }
    {
        self.queue.skip(max as usize);
        self.streams.remove_all(numbers);
    }
}

/// Adds the closings of these streams.
fn push_closings(outputs: &mut Outputs, numbers: &[u64]) -> Result<(), OutOfMemory>
    ensures ok { OnOk result (outputs.new ≡ outputs.old ++ map output.Close numbers.now) }
    ensures wanted { OnErr result (1 ≤ length numbers.now) }
{
    for number in numbers {
        outputs.push(Output::Close { stream: *number })?;
    }
    Ok(())
}
