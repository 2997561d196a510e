//! What a network notes of the replies to its events. It says nothing at run time.

ghost use Rattle.grasp_laws_network.specs.Noted.{RepliesAreNoted};

/// A network notes at each event exactly what the event's step tells: the flood or search that a call begins, the floods
/// that it reads, the handle that it is given, and the discovery that is answered. The first network has noted nothing.
pub fn replies_are_noted()
    ensures { RepliesAreNoted }
{}
