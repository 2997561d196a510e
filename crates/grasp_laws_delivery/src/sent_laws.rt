//! Laws of what comes to the nodes of a network. They say nothing at run time.

ghost use Rattle.grasp_laws_delivery.specs.Divided.{DatagramsAreMessages, NodesAreFed};

/// Each datagram that was sent carries a message in range, and is bytes.
pub fn datagrams_are_messages()
    ensures { DatagramsAreMessages }
{}

/// Each node of a network that turns lead to has waiting on its open streams what came on them, and whatever an event
/// brings to it is bytes.
pub fn nodes_are_fed()
    ensures { NodesAreFed }
{}
