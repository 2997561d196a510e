//! Laws of what a drain gives. They say nothing at run time.

ghost use Rattle.grasp_laws_node.specs.Drains.{DrainsCloseOnce, DrainsGiveInOrder};

/// A drain gives at most what was asked for: what is queued in order, and closings only once nothing is queued.
pub fn drains_give_in_order()
    ensures { DrainsGiveInOrder }
{}

/// Closings come by rising number and once each, and enough room leaves no stream that is closing.
pub fn drains_close_once()
    ensures { DrainsCloseOnce }
{}
