//! How a session begins.

use grasp_types::{Kind, Objective};

/// A session that begins with a request, which this end sent or took.
#[derive(Drop)]
pub struct Begin {
    /// The agent that holds the session, or 0 where none has taken it yet: that is so for a listener's session alone.
    pub owner: u32,
    /// A negotiation or a synchronization, of which only the requester has a session.
    pub kind: Kind,
    /// Whether this end sent the request.
    pub requester: bool,
    /// The session number of all its messages (RFC 8990, section 2.7).
    pub session: u32,
    /// The number of the stream that carries it.
    pub stream: u64,
    /// How many milliseconds after the request, and after each later message that is no wait, the session times out.
    /// A wait can only put that off (RFC 8990, section 2.8.9).
    pub timeout: u32,
    /// The request's objective.
    pub objective: Objective,
    /// Whether an agent holds the session: the owner is not 0.
    pub taken: bool,
}
