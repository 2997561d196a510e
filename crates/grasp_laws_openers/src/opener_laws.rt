//! Who dialled the streams of a node. They say nothing at run time.

ghost use Rattle.grasp_laws_openers.specs.Laws.{OpenersAreTold};

use grasp_laws_delivery::streams_are_ready;

/// Each record of a node is that of a stream which it dialled, and has an even number, or tells the address of the node that dialled it.
pub fn openers_are_told()
    ensures { OpenersAreTold }
{
    streams_are_ready();
}
