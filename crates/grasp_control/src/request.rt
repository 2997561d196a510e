//! What a visitor asks of a node.

use grasp_cbor::OutOfMemory;
use grasp_config::LogLevel;
use grasp_types::{Call, Locator};

/// What a visitor asks of a node.
#[derive(Debug, Drop)]
pub enum Request {
    /// A call by the visitor's agent (RFC 8991). A line names a session by its number alone, so its place is 0.
    Call(Call),
    /// A call that is made again until it tells something, or so many milliseconds have passed: to discover, to listen for
    /// a negotiation, or to poll.
    Await {
        millis: u32,
        call: Call,
    },
    /// What the node holds.
    State,
    /// How its wants stand.
    Wants,
    /// What its readers have read.
    Reads,
    /// To be told of events from now on.
    Events,
    /// What the node has counted.
    Counters,
    /// Which node and which protocol this is.
    Version,
    /// One more want: a prefix of this length, or of one up to the longest, 1 to 128, of this peer.
    Want {
        length: u8,
        longest: u8,
        peer: Locator,
    },
    /// The want of this number is to be dropped.
    Unwant {
        number: u64,
    },
    /// How much is to be logged from now on.
    Log {
        level: LogLevel,
    },
    /// The node is to end.
    Stop,
}

/// Why a line is no request, or wasn't read.
#[derive(Clone, Copy, Debug, PartialEq, Eq)]
pub enum RequestFault {
    /// No request has the line. The place of the first word with which, after the words before it, no request's line begins,
    /// or the line's length where a word is missing.
    BadLine { at: u64 },
    /// There was no memory.
    OutOfMemory,
}

impl From<OutOfMemory> for RequestFault {
    ghost use Rattle.std.specs.Prelude.{◌≡◌};
    ghost use Rattle.grasp_control.specs.declared.request.RequestFault.TheVariants as faults;

    ghost from_gives = { λ _ e. e ≡ faults.OutOfMemory };

    fn from(_: OutOfMemory) -> RequestFault {
        RequestFault::OutOfMemory
    }
}
