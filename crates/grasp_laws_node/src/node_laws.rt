//! Laws of nodes to which steps lead, whatever their agents and their peers do. They say nothing at run time.

ghost use Rattle.grasp_model_node.specs.BoundedNodes.{NodesAreKept, NodeStepsAreBounded};

/// A node's lists stay within their limits, and its sessions are those to which calls of a table lead.
#[tactic(auto, using(crate::proofs::Bounded::Nodes::nodes_kept))]
pub fn nodes_are_kept()
    ensures { NodesAreKept }
{}

/// The steps that a session sends and keeps are fewer than its request's loop count, and none where that is 0.
pub fn node_steps_are_bounded()
    ensures { NodeStepsAreBounded }
{}
