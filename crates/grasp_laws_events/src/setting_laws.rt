//! What the settings of networks are. They say nothing at run time.

ghost use Rattle.grasp_laws_events.specs.Scripts.{ScriptsHaveSettings};
ghost use Rattle.grasp_laws_events.specs.Ways.{WaysLeadToNeighbours};

use grasp_laws_delivery::streams_are_ready;

/// A datagram's way leads to the neighbour for which it was queued, and there is one to each neighbour.
pub fn ways_lead_to_neighbours()
    ensures { WaysLeadToNeighbours }
{}

/// The network of a script has its plan's nodes, links, roots and limit, and its streams arrive with odd numbers in the order of their dials.
pub fn scripts_have_settings()
    ensures { ScriptsHaveSettings }
{
    streams_are_ready();
}
