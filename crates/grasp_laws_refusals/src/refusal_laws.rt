//! Laws of the refusals of a node. They say nothing at run time.

ghost use Rattle.grasp_laws_refusals.specs.Refusals.{RefusalsHaveCauses};

/// A call is refused for the cause of the least number of those that hold, and for want of memory only where none holds. Where
/// a cause holds, it isn't answered: a message of one byte more than the limit is too long, and none of the limit is.
pub fn refusals_have_causes()
    ensures { RefusalsHaveCauses }
{}
