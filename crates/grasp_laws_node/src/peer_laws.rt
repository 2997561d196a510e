//! Laws of what the bytes of a peer leave alone. They say nothing at run time.

ghost use Rattle.grasp_laws_node.specs.Alone.{PeersLeaveTheRest, DatagramsLeaveAgents};

/// What comes on a stream leaves the sessions and the records of other streams, what is registered, the searches and the
/// floods as they are, and the cache but where a response came. What is queued stays so, and more may stand behind it.
pub fn peers_leave_the_rest()
    ensures { PeersLeaveTheRest }
{}

/// A datagram leaves the sessions, the records of streams, what is registered, the searches and the cache as they are.
/// What is queued stays so, and more may stand behind it.
pub fn datagrams_leave_agents()
    ensures { DatagramsLeaveAgents }
{}
