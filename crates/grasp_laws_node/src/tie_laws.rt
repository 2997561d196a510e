//! Laws of how the parts of a node hold together. They say nothing at run time.

ghost use Rattle.grasp_laws_node.specs.Consistent.{TiesAreKept};

/// A session that goes on has an open stream, and one with an outcome has none; a stream that the node dialled is open
/// only while its session goes on; and what no agent has taken is a request alone, for an objective that is listened for.
#[tactic(auto, using(crate::proofs::Consistent::Nodes::ties_kept))]
pub fn ties_are_kept()
    ensures { TiesAreKept }
{}
