//! What is asked of a session, and what it answers.

/// What an end may do in a session.
#[derive(Clone, Copy, Debug, PartialEq, Eq)]
pub enum Act {
    /// Offer a value by an M_NEGOTIATE (RFC 8990, section 2.8.7).
    Step,
    /// Ask the peer for more time by an M_WAIT (RFC 8990, section 2.8.9).
    Wait,
    /// Accept or decline by an M_END (RFC 8990, section 2.8.8).
    End,
    /// Give up by an M_INVALID (RFC 8990, section 2.8.12).
    Invalid,
}

/// What became of a message that came.
#[derive(Clone, Copy, Debug, PartialEq, Eq)]
pub enum Received {
    /// It belongs to the session from now on.
    Kept,
    /// It changes nothing.
    Ignored,
    /// It may not come now: the session is to end.
    Bad,
}

/// Why a call on a session is refused.
#[derive(Clone, Copy, Debug, PartialEq, Eq)]
pub enum SessionRefused {
    /// 64 sessions are live, or 2^64 - 1 were made.
    SessionsFull,
    /// No live session of this owner has this handle.
    NoSession,
    /// The session has an outcome, or, for an act other than `Invalid`, it is the peer's turn.
    NotYourTurn,
    /// The last loop count is at most 1.
    LoopsSpent,
    /// 4 waits were sent in this turn.
    WaitsSpent,
    /// There was no memory for the call.
    OutOfMemory,
}
