//! Openings and closings of streams.

ghost use Rattle.std.specs.Prelude.{◌≡◌, OnOk, OnErr};
ghost use Rattle.grasp_model_node.specs.Bytes.{after_closed, broken};
ghost use Rattle.grasp_model_node.specs.Moves.{open_record};
ghost use Rattle.grasp_model_node.specs.Node.{NodeState};
ghost use Rattle.grasp_model_node.specs.Opening.{MayOpen, after_opened, is_ignored};
ghost use Rattle.grasp_core.specs.Stands.{NodeStands};

use crate::NodeCore;
use grasp_cbor::OutOfMemory;
use grasp_types::{Address, Reply};

impl NodeCore {
    /// A peer opens a stream.
    pub(crate) fn opened(&mut self, stream: u64, from: Address) -> Reply
        ensures { (n : NodeState) → NodeStands self.old n → MayOpen n stream result × NodeStands self.new (after_opened n stream from result) }
    {
        if self.is_ignored(stream) {
            return Reply::Taken;
        }
        if self.streams.is_full() {
            return Reply::Turned;
        }
        match self.open_record(stream, from) {
            Ok(()) => Reply::Taken,
            Err(_) => Reply::OutOfMemory,
        }
    }

    /// Whether an opening of this number is ignored: peers open streams of odd numbers, and of none that has a record or a
    /// live session. Once both are gone, a number may be opened again.
    fn is_ignored(&self, stream: u64) -> bool
        ensures { (n : NodeState) → NodeStands self.now n → result ≡ is_ignored n stream }
    {
        stream % 2 == 0 || self.streams.has(stream) || self.table.state(stream).is_some()
    }

    /// The stream has a record. After an `Err` all is as before.
    #[tactic(auto, unfolding(grasp_model_node::specs::Moves::open_record))]
    fn open_record(&mut self, stream: u64, from: Address) -> Result<(), OutOfMemory>
        ensures ok { OnOk result ((n : NodeState) → NodeStands self.old n → NodeStands self.new (open_record n stream from)) }
        ensures err { OnErr result ((n : NodeState) → NodeStands self.old n → NodeStands self.new n) }
    {
        self.streams.open(stream, from)
    }

    /// A stream ended. It takes no memory.
    #[tactic(auto, unfolding(grasp_model_node::specs::Bytes::after_closed))]
    pub(crate) fn closed(&mut self, stream: u64) -> Reply
        ensures reply { result ≡ Reply.Taken }
        ensures then { (n : NodeState) → NodeStands self.old n → NodeStands self.new (after_closed n stream) }
    {
        if self.streams.has(stream) {
            self.break_off(stream);
        }
        Reply::Taken
    }

    /// The session of a stream is broken, and the stream has no record any more.
    #[tactic(auto, unfolding(grasp_model_node::specs::Moves::with_sessions, grasp_model_node::specs::Moves::drop_record))]
    pub(crate) fn break_off(&mut self, stream: u64)
        ensures { (n : NodeState) → NodeStands self.old n → NodeStands self.new (broken n stream) }
    {
        self.table.closed(stream);
        self.streams.remove(stream);
    }
}
