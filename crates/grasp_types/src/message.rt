//! Messages (RFC 8990, section 2.8).

ghost use Rattle.std.specs.Prelude.{◌≡◌};
ghost use Rattle.std.proofs.Common.{rules};
ghost use Rattle.grasp_types.specs.Message.{session_of, MessagesNestSixteenDeep, OneMessageAnItem};

use crate::{Address, FloodParts, Locators, Objective, Plain, Value};
use grasp_cbor::Chars;

/// How a negotiation ends (RFC 8990, sections 2.9.3 and 2.9.4).
#[derive(Clone, Debug, Drop)]
pub enum Verdict {
    /// The last offer is accepted.
    Accept,
    /// It is declined, perhaps with a reason.
    Decline(Option<Chars>),
}

/// What a response to a discovery tells (RFC 8990, section 2.8.5).
#[derive(Clone, Debug, Drop)]
pub enum Answer {
    /// Where the objective can be reached.
    Locators(Locators),
    /// Whom to ask instead (RFC 8990, section 2.9.2).
    Divert(Locators),
}

/// A message. The session is the number that its initiator drew, times are in milliseconds.
#[derive(Clone, Debug, Drop)]
pub enum Message {
    /// M_NOOP.
    Noop,
    /// M_DISCOVERY.
    Discovery {
        session: u32,
        initiator: Address,
        objective: Objective,
    },
    /// M_RESPONSE.
    Response {
        session: u32,
        initiator: Address,
        ttl: u32,
        answer: Answer,
        objective: Option<Objective>,
    },
    /// M_REQ_NEG.
    ReqNeg {
        session: u32,
        objective: Objective,
    },
    /// M_REQ_SYN.
    ReqSyn {
        session: u32,
        objective: Objective,
    },
    /// M_NEGOTIATE.
    Negotiate {
        session: u32,
        objective: Objective,
    },
    /// M_END.
    End {
        session: u32,
        verdict: Verdict,
    },
    /// M_WAIT.
    Wait {
        session: u32,
        millis: u32,
    },
    /// M_SYNCH.
    Synch {
        session: u32,
        objective: Objective,
    },
    /// M_FLOOD. A lifetime of 0 never ends.
    Flood {
        session: u32,
        initiator: Address,
        ttl: u32,
        parts: FloodParts,
    },
    /// M_INVALID.
    Invalid {
        session: u32,
        detail: Option<Value>,
    },
}

impl Message {
    /// The session number of a message, which every message but M_NOOP has.
    pub fn session(&self) -> Option<u32>
        ensures { result ≡ session_of self.now }
    {
        match *self {
            Message::Noop => None,
            Message::Discovery { session, .. }
            | Message::Response { session, .. }
            | Message::ReqNeg { session, .. }
            | Message::ReqSyn { session, .. }
            | Message::Negotiate { session, .. }
            | Message::End { session, .. }
            | Message::Wait { session, .. }
            | Message::Synch { session, .. }
            | Message::Flood { session, .. }
            | Message::Invalid { session, .. } => Some(session),
        }
    }
}

impl Plain for Verdict {
    ghost clones_are_same = { Prim.search rules };
}

impl Plain for Answer {
    ghost clones_are_same = { Prim.search rules };
}

impl Plain for Message {
    ghost clones_are_same = { Prim.search rules };
}

/// A message in which each part is within its type's range has its data item for itself alone.
#[tactic(auto, using(crate::proofs::FromItems::no_two_messages))]
pub fn one_message_an_item()
    ensures { OneMessageAnItem }
{}

/// A message's data item nests at most 16 deep, as deep as an encoding may.
#[tactic(auto, using(crate::proofs::Depths::message_depth))]
pub fn messages_nest_sixteen_deep()
    ensures { MessagesNestSixteenDeep }
{}
