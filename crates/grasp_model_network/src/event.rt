//! What happens in a network.

ghost use Rattle.std.proofs.Common.{rules};

use grasp_types::{Call, Plain, Prefix};

/// What happens in a network. Nodes are numbered from 1, and so are datagrams, by the order in which they were sent, and
/// streams, by the order in which their dials were sent.
///
/// After each event at a node but a clock, a want, a return and a drain, up to 256 of its outputs are sent, unless the event says `hold`.
#[derive(Clone, Debug, Drop)]
pub enum Event {
    /// The clock of a node shows this reading, in milliseconds, or a later one that it has shown.
    Clock {
        node: u8,
        millis: u64,
    },
    /// A node's agent is to get a prefix of this length, or of one up to the longest, from a peer.
    Want {
        node: u8,
        length: u8,
        longest: u8,
        peer: u8,
    },
    /// A node's agent is to give this prefix back to a peer, where it holds all of it.
    Return {
        node: u8,
        prefix: Prefix,
        peer: u8,
    },
    /// A node's agent makes its next call, and takes the reply.
    Agent {
        node: u8,
        hold: bool,
    },
    /// Another agent of a node makes a call.
    Api {
        node: u8,
        asa: u32,
        call: Call,
        hold: bool,
    },
    /// A datagram that was sent is delivered, again if it was before.
    Datagram {
        index: u64,
        hold: bool,
    },
    /// A stream that was dialled is opened at the node that was dialled.
    Arrive {
        stream: u64,
        hold: bool,
    },
    /// The next so many bytes of a stream, or all that are left, are delivered to a side of it.
    Bytes {
        stream: u64,
        far: bool,
        count: u64,
        hold: bool,
    },
    /// A side of a stream is told that it is closed, and gets nothing more.
    Cut {
        stream: u64,
        far: bool,
        hold: bool,
    },
    /// Up to so many outputs of a node are sent.
    Drain {
        node: u8,
        max: u32,
    },
}

impl Plain for Event {
    ghost clones_are_same = { Prim.search rules };
}
