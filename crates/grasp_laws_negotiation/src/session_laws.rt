//! The sessions of a network and their streams. They say nothing at run time.

ghost use Rattle.grasp_laws_negotiation.specs.Streams.{SessionsHaveStreams};

use crate::negotiation_laws::grounds_hold;

/// Each session that a node has made is that of one side of one stream, and no two had the same.
pub fn sessions_have_streams()
    ensures { SessionsHaveStreams }
{
    grounds_hold();
}
