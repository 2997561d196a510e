//! Laws of how a step begins. They say nothing at run time.

ghost use Rattle.grasp_laws_node.specs.Beginnings.{BeginTwiceIsOnce, BeginningsEndThings, DrainOfNothing, SessionsTimeOut};

/// A beginning ends what has come to its end by the reading, and leaves what is registered and what is queued as it is.
#[tactic(auto, using(crate::proofs::Beginning::beginnings_end))]
pub fn beginnings_end_things()
    ensures { BeginningsEndThings }
{}

/// Every session whose deadline has come times out, and its stream begins closing.
pub fn sessions_time_out()
    ensures { SessionsTimeOut }
{}

/// A second beginning at the same reading changes nothing, and neither does a drain of nothing behind it.
pub fn a_beginning_is_enough()
    ensures once { BeginTwiceIsOnce }
    ensures drained { DrainOfNothing }
{}
