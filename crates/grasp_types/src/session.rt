//! Sessions as agents see them: their handles, their progress and their outcomes.

ghost use Rattle.std.proofs.Common.{rules};

use crate::{Objective, Plain};
use grasp_cbor::Chars;

/// What an objective is used for.
#[derive(Clone, Copy, Debug, PartialEq, Eq, Hash)]
pub enum Kind {
    /// The two ends bargain over a value (RFC 8990, section 2.5.5).
    Negotiation,
    /// One end asks for the other's value (RFC 8990, section 2.5.6).
    Synchronization,
}

/// Which end did it, or whose message did.
#[derive(Clone, Copy, Debug, PartialEq, Eq, Hash)]
pub enum By {
    /// This end.
    Mine,
    /// The peer.
    Theirs,
}

/// The name of a session at its node: a place, used again later, and a number, never used again.
#[derive(Clone, Copy, Debug, PartialEq, Eq, Hash)]
pub struct Handle {
    /// 0 to 63.
    pub place: u32,
    /// How many sessions this node had made when this one was, itself counted.
    pub number: u64,
}

/// How a session ended. Times are readings of this node's clock in milliseconds.
#[derive(Clone, Debug, Drop)]
pub enum Outcome {
    /// One end accepted the other's last offer.
    Agreed { by: By, objective: Objective },
    /// One end declined, perhaps with a reason.
    Declined { by: By, reason: Option<Chars> },
    /// The peer told its value.
    Synchronized { objective: Objective },
    /// A reading reached the deadline.
    TimedOut { deadline: u64, now: u64 },
    /// The stream broke.
    Broken,
    /// This node had no memory for what came.
    OutOfMemory,
    /// One end sent M_INVALID. `Mine` also where what came was bad.
    Invalid { by: By },
}

/// What a poll of a session tells.
#[derive(Clone, Debug, Drop)]
pub enum Progress {
    /// It is the peer's turn.
    NotYet,
    /// It is this end's turn, and this is the peer's last offer.
    Turn(Objective),
    /// It is over.
    Ended(Outcome),
}

impl Plain for Kind {
    ghost clones_are_same = { Prim.search rules };
}

impl Plain for By {
    ghost clones_are_same = { Prim.search rules };
}

impl Plain for Handle {
    ghost clones_are_same = { Prim.search rules };
}

impl Plain for Outcome {
    ghost clones_are_same = { Prim.search rules };
}

impl Plain for Progress {
    ghost clones_are_same = { Prim.search rules };
}
