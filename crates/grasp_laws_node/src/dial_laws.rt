//! What the steps of a node dial. They say nothing at run time.

ghost use Rattle.grasp_laws_node.specs.Dials.{DialsAreCounted, DrainsDialNothing};
ghost use Rattle.grasp_laws_node.specs.Order.{QueuesAreInOrder};
ghost use Rattle.grasp_laws_node.specs.Sends.{SendsAreKnown};

use crate::tie_laws::ties_are_kept;

/// A step that doesn't drain leaves what is queued, and the dials that it queues behind are those of the next streams.
#[tactic(auto, using(crate::proofs::DialNodes::dials_counted))]
pub fn dials_are_counted()
    ensures { DialsAreCounted }
{}

/// A drain takes from the front of the queue, and dials nothing.
pub fn drains_dial_nothing()
    ensures { DrainsDialNothing }
{}

/// The dials that are queued are always those of the streams that were dialled last, in order.
#[tactic(auto, using(crate::proofs::Orders::queues_in_order))]
pub fn queues_are_in_order()
    ensures { QueuesAreInOrder }
{}

/// Whichever streams peers opened: where each record is that of one of these or of a stream that the node dialled, so it is after each
/// step, and each message that the step queues is for such a stream, or for one that the same step dialled before it.
pub fn sends_are_known()
    ensures { SendsAreKnown }
{
    ties_are_kept();
}
