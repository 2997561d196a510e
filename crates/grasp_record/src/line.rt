//! Lines of a record.

use grasp_agent::{ReturnFault, WantFault};
use grasp_cbor::Octets;
use grasp_types::{Address, ApiAnswer, ApiRefused, Call, Outputs, Prefix};

/// What a node took.
#[derive(Debug, Drop)]
pub enum RecordInput {
    /// A call by the agent of this number.
    Api { asa: u32, call: Call },
    /// The next call of the node's own agent.
    Agent { call: Call },
    /// The node's own agent is to get a prefix of this length, or of one up to the longest, from a peer.
    Want { length: u8, longest: u8, peer: u8 },
    /// The node's own agent is to give this prefix back to a peer.
    Return { prefix: Prefix, peer: u8 },
    /// A datagram that came on a link from a neighbour.
    Datagram { link: u8, from: u8, bytes: Octets },
    /// A stream that a peer opened.
    Opened { stream: u64, from: Address },
    /// Bytes that came on a stream.
    Bytes { stream: u64, bytes: Octets },
    /// A stream that ended.
    Closed { stream: u64 },
    /// A request for at most `max` of the queued outputs.
    Drain { max: u32 },
}

/// What a node answered.
#[derive(Debug, Drop)]
pub enum RecordAnswer {
    /// The call was answered.
    Api(ApiAnswer),
    /// The call was refused.
    Refused(ApiRefused),
    /// The agent took the want, or didn't.
    Want(Result<(), WantFault>),
    /// The agent took the return, or didn't.
    Return(Result<(), ReturnFault>),
    /// The input was taken.
    Taken,
    /// The stream was turned away.
    Turned,
    /// What a drain took from the queue.
    Outputs(Outputs),
}

/// A line of a record: what a node took at a reading of its clock, and what it answered.
#[derive(Debug, Drop)]
pub struct RecordLine {
    /// The node's number, from 1.
    pub node: u8,
    /// The reading of its clock, in milliseconds.
    pub now: u64,
    /// What it took.
    pub input: RecordInput,
    /// What it answered.
    pub answer: RecordAnswer,
}
