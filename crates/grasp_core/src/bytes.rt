//! A piece of a stream.

ghost use Rattle.grasp_model_node.specs.Bytes.{broken, starved};
ghost use Rattle.grasp_core.specs.Contract.{Meeting, MeetsBytes, GivesBytes};
ghost use Rattle.grasp_core.specs.Feeding.{Keeping, taken};
ghost use Rattle.grasp_model_node.specs.Moves.{keep_past};
ghost use Rattle.grasp_model_node.specs.Node.{NodeState};
ghost use Rattle.grasp_core.specs.Stands.{CutsAs, CutsOpen, NodeStands};
ghost use Rattle.grasp_model_node.specs.Streams.{past_of};

use crate::NodeCore;
use crate::feeding::Left;
use grasp_types::Reply;
use grasp_wire::Cutter;

impl NodeCore {
    /// Bytes come on a stream. Those on one that is closing, or has no record, are ignored.
    pub(crate) fn bytes(&mut self, stream: u64, piece: &[u8]) -> Reply
        ensures { (x : Meeting) → MeetsBytes self.old stream piece.now x → GivesBytes self.new stream piece.now x result }
    {
        let Some(cutter) = self.take_out(stream) else {
            return Reply::Taken;
        };
        match self.feed(cutter, stream, piece) {
            Left::Open(cutter) => {
                self.put_back(stream, cutter);
                Reply::Taken
            }
            Left::Shut => Reply::Taken,
            Left::TooLong => {
                self.break_off(stream);
                Reply::Taken
            }
            Left::Starved => {
                self.starve_stream(stream);
                Reply::OutOfMemory
            }
        }
    }

    /// Takes the cutter of an open stream out, which counts as closing then.
    fn take_out(&mut self, stream: u64) -> Option<Cutter>
        ensures cutter { (n : NodeState) → NodeStands self.old n → CutsAs n.plan.limit result (past_of n.streams stream) }
        ensures then { (n : NodeState) → NodeStands self.old n → NodeStands self.new (taken n stream (past_of n.streams stream)) }
    {
        self.streams.take(stream)
    }

    /// Puts the cutter of a stream back, which is open then.
    fn put_back(&mut self, stream: u64, cutter: Cutter)
        ensures { (k : Keeping) → NodeStands self.old k.node → CutsOpen k.node.plan.limit cutter k.past
            → NodeStands self.new (keep_past k.node stream k.past) }
    {
        self.streams.put(stream, cutter);
    }

    /// There was no memory for what came on a stream: its session ends by that, and its record goes.
    #[tactic(auto, unfolding(grasp_model_node::specs::Moves::with_sessions, grasp_model_node::specs::Moves::drop_record))]
    fn starve_stream(&mut self, stream: u64)
        ensures { (n : NodeState) → NodeStands self.old n → NodeStands self.new (starved n stream) }
    {
        self.table.starved(stream);
        self.streams.remove(stream);
    }
}
