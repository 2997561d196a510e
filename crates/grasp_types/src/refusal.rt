//! Why an agent's call was refused.

ghost use Rattle.std.specs.Prelude.{◌≡◌};
ghost use Rattle.grasp_types.specs.Refusal.{refusal_number, refusal_name};

use crate::Plain;

/// Why an agent's call was refused. Where several refusals hold, that of the least number is answered.
#[derive(Clone, Copy, Debug, PartialEq, Eq)]
pub enum ApiRefused {
    /// No registered agent has this number.
    NoAsa,
    /// 32 agents are registered, or 4294967295 have been.
    AsasFull,
    /// A registered agent has this name.
    DuplicateAsa,
    /// The flags have both F_NEG and F_SYNCH, or neither.
    NotBoth,
    /// 64 objectives are registered.
    ObjectivesFull,
    /// An agent of this node has registered the name.
    ObjectiveTaken,
    /// This agent hasn't registered the name.
    NotYourObjective,
    /// This agent's objective lacks F_NEG.
    NotNegotiable,
    /// This agent's objective lacks F_SYNCH.
    NotSynchronizable,
    /// F_NEG_DRY is registered without F_NEG, or a request is dry and the objective lacks F_NEG_DRY.
    NotDry,
    /// The peer isn't an IPv6 or IPv4 locator with TCP.
    BadLocator,
    /// This agent has no live session of this handle.
    NoSession,
    /// The session has an outcome, or, but for `SendInvalid`, it is the peer's turn.
    NotYourTurn,
    /// The last loop count allows no further step.
    LoopsSpent,
    /// 4 waits were sent in this turn.
    WaitsSpent,
    /// No kept flood has this name and initiator.
    NoFlood,
    /// 64 sessions are live; for `Discover`, 64 searches are kept.
    SessionsFull,
    /// 64 streams have a record, or this core has dialled 2^62.
    StreamsFull,
    /// The message doesn't fit the limit.
    TooLong,
    /// The queue has no room for all outputs of the call.
    OutboxFull,
    /// There was no memory.
    OutOfMemory,
}

impl ApiRefused {
    /// Its number, 1 to 21, which is also its rank: the least of those that hold is answered.
    pub fn number(self) -> u8
        ensures { result ≡ refusal_number self }
    {
        match self {
            ApiRefused::NoAsa => 1,
            ApiRefused::AsasFull => 2,
            ApiRefused::DuplicateAsa => 3,
            ApiRefused::NotBoth => 4,
            ApiRefused::ObjectivesFull => 5,
            ApiRefused::ObjectiveTaken => 6,
            ApiRefused::NotYourObjective => 7,
            ApiRefused::NotNegotiable => 8,
            ApiRefused::NotSynchronizable => 9,
            ApiRefused::NotDry => 10,
            ApiRefused::BadLocator => 11,
            ApiRefused::NoSession => 12,
            ApiRefused::NotYourTurn => 13,
            ApiRefused::LoopsSpent => 14,
            ApiRefused::WaitsSpent => 15,
            ApiRefused::NoFlood => 16,
            ApiRefused::SessionsFull => 17,
            ApiRefused::StreamsFull => 18,
            ApiRefused::TooLong => 19,
            ApiRefused::OutboxFull => 20,
            ApiRefused::OutOfMemory => 21,
        }
    }

    /// Its name, as reports print it.
    pub fn name(self) -> &'static str
        ensures { result.now ≡ refusal_name self }
    {
        match self {
            ApiRefused::NoAsa => "NoAsa",
            ApiRefused::AsasFull => "AsasFull",
            ApiRefused::DuplicateAsa => "DuplicateAsa",
            ApiRefused::NotBoth => "NotBoth",
            ApiRefused::ObjectivesFull => "ObjectivesFull",
            ApiRefused::ObjectiveTaken => "ObjectiveTaken",
            ApiRefused::NotYourObjective => "NotYourObjective",
            ApiRefused::NotNegotiable => "NotNegotiable",
            ApiRefused::NotSynchronizable => "NotSynchronizable",
            ApiRefused::NotDry => "NotDry",
            ApiRefused::BadLocator => "BadLocator",
            ApiRefused::NoSession => "NoSession",
            ApiRefused::NotYourTurn => "NotYourTurn",
            ApiRefused::LoopsSpent => "LoopsSpent",
            ApiRefused::WaitsSpent => "WaitsSpent",
            ApiRefused::NoFlood => "NoFlood",
            ApiRefused::SessionsFull => "SessionsFull",
            ApiRefused::StreamsFull => "StreamsFull",
            ApiRefused::TooLong => "TooLong",
            ApiRefused::OutboxFull => "OutboxFull",
            ApiRefused::OutOfMemory => "OutOfMemory",
        }
    }
}

impl Plain for ApiRefused {
    ghost use Rattle.std.proofs.Common.{rules};

    ghost clones_are_same = { Prim.search rules };
}
