//! Laws of the session numbers that a node draws. They say nothing at run time.

ghost use Rattle.grasp_laws_numbers.specs.Next.{DrawnIsNext, UsedAreInUse};

/// The next session number is the next word of the node's random stream, raised by the least count by which it is one that no
/// request and no search of the node has.
pub fn drawn_is_next()
    ensures { DrawnIsNext }
{}

/// Just the numbers of the live sessions that a node requested and of its searches are used.
pub fn used_are_in_use()
    ensures { UsedAreInUse }
{}
