//! Laws of the session numbers that a node draws. They say nothing at run time.

ghost use Rattle.grasp_laws_node.specs.Numbers.{DrawnIsUnused, NumbersAreOwn};

/// The number that is drawn next is one that no live session that this node requested and no kept search has.
pub fn drawn_is_unused()
    ensures { DrawnIsUnused }
{}

/// No two live sessions that a node requested and kept searches have one session number.
#[tactic(auto, using(crate::proofs::Numbers::Own::numbers_own))]
pub fn numbers_are_own()
    ensures { NumbersAreOwn }
{}
