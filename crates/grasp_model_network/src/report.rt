//! What an event comes to.

ghost use Rattle.std.proofs.Common.{rules};

use grasp_agent::{ReturnFault, WantFault};
use grasp_types::{Call, Plain, Reply};

/// What an event comes to.
#[derive(Clone, Debug, Drop)]
pub enum Report {
    /// The reply of the node.
    Reply(Reply),
    /// The call that the node's agent made, and the reply.
    Agent { call: Call, reply: Reply },
    /// Nothing came of it: the datagram or the stream isn't there, or the side of the stream gets nothing.
    Nothing,
    /// The reading of the node, in milliseconds.
    Reading(u64),
    /// Whether the agent took the want.
    Want(Result<(), WantFault>),
    /// Whether the agent took the return.
    Return(Result<(), ReturnFault>),
    /// How many outputs were sent.
    Sent(u64),
}

/// Why a network goes no further. After it every later event is answered by it again.
#[derive(Clone, Copy, Debug, PartialEq, Eq)]
pub enum WorldStop {
    /// The datagrams and streams that were sent have more than 268435456 bytes.
    TooMuch,
    /// There was no memory.
    OutOfMemory,
}

impl Plain for WorldStop {
    ghost clones_are_same = { Prim.search rules };
}
