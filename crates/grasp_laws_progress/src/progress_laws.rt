//! Laws of the outcomes of a node's steps. They say nothing at run time.

ghost use Rattle.grasp_laws_progress.specs.Outcomes.{EachComingComesOut, EachInputComesOut};

/// Whatever comes with an input at a node, there is a reply to it, which isn't that the node was out of memory, and a node after.
#[tactic(auto, using(crate::proofs::Outcomes::each_coming))]
pub fn each_coming_comes_out()
    ensures { EachComingComesOut }
{}

/// With each input at each time something comes to a node to which steps lead, and the step comes out with a reply.
#[tactic(auto, using(crate::proofs::Outcomes::each_input))]
pub fn each_input_comes_out()
    ensures { EachInputComesOut }
{}
