//! Laws of the datagrams that come to a node. They say nothing at run time.

ghost use Rattle.grasp_laws_datagrams.specs.Datagrams.{DatagramsAreTaken};
ghost use Rattle.grasp_laws_datagrams.specs.Relaying.{EachWayIsTaken, OtherWaysAreOther};

/// What a datagram does: exactly, for each message. A discovery is answered, diverted or sent on, a flood kept and sent on, and
/// either is remembered, to an end that is told; what is known, dropped or no such message changes nothing.
pub fn datagrams_are_taken()
    ensures { DatagramsAreTaken }
{}

/// What came on one link is sent on to each neighbour of every other link, and to no other.
pub fn other_ways_are_other()
    ensures { OtherWaysAreOther }
{}

/// Along ways a message goes by a datagram to the neighbour of each, on its link, in order, and by no other.
pub fn each_way_is_taken()
    ensures { EachWayIsTaken }
{}
