//! What goes into a node and what comes out of it.

ghost use Rattle.std.proofs.Common.{rules};

use crate::{Address, Call, List, Locator, Plain};
use grasp_cbor::Octets;

/// One input of a node. Links and their neighbours are numbered from 0, in the order of the node's plan.
#[derive(Clone, Debug, Drop)]
pub enum Input {
    /// A call by the agent of this number.
    Api { asa: u32, call: Call },
    /// A datagram that came on a link from a neighbour.
    Datagram { link: u8, from: u8, bytes: Octets },
    /// A stream that a peer opened.
    Opened { stream: u64, from: Address },
    /// Bytes that came on a stream.
    Bytes { stream: u64, bytes: Octets },
    /// A stream that ended.
    Closed { stream: u64 },
    /// A request for at most `max` of the queued outputs.
    Drain { max: u32 },
}

/// One output of a node.
#[derive(Clone, Debug, Drop)]
pub enum Output {
    /// A datagram to a neighbour on a link.
    Datagram { link: u8, to: u8, bytes: Octets },
    /// A stream to be opened.
    Dial { stream: u64, to: Locator },
    /// Bytes for a stream.
    Send { stream: u64, bytes: Octets },
    /// A stream to be ended.
    Close { stream: u64 },
}

/// Outputs in order: those that were queued, and then the closings, by rising number of their streams.
pub type Outputs = List<Output>;

impl Plain for Input {
    ghost clones_are_same = { Prim.search rules };
}

impl Plain for Output {
    ghost clones_are_same = { Prim.search rules };
}
