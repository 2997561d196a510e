//! What an agent of PrefixManager decides in its turn.

ghost use Rattle.std.specs.Prelude.{◌≡◌};
ghost use Rattle.grasp_agent.specs.Calls.{reason_text};

use grasp_types::Prefix;

/// Why an agent declines.
#[derive(Clone, Copy, Debug, PartialEq, Eq)]
pub enum Reason {
    /// The value isn't one of PrefixManager.
    BadValue,
    /// There is no loop left for an offer.
    NoLoops,
    /// No prefix is free.
    NoPrefix,
    /// The prefix is longer than the longest that is wanted.
    TooSmall,
    /// The prefix can't be gained.
    NotTaken,
}

impl Reason {
    /// What the peer is told.
    pub(crate) fn text(self) -> &'static str
        ensures { result.now ≡ reason_text self }
    {
        match self {
            Reason::BadValue => "bad-value",
            Reason::NoLoops => "no-loops",
            Reason::NoPrefix => "no-prefix",
            Reason::TooSmall => "too-small",
            Reason::NotTaken => "not-taken",
        }
    }
}

/// What a giver decides.
#[derive(Clone, Copy, Debug, PartialEq, Eq)]
pub enum GiverDecision {
    /// It offers this prefix.
    Offer(Prefix),
    /// It accepts this prefix, which is given back.
    Accept(Prefix),
    /// It declines.
    Decline(Reason),
}

/// What one that requests a prefix decides.
#[derive(Clone, Copy, Debug, PartialEq, Eq)]
pub enum RequesterDecision {
    /// It accepts this prefix.
    Accept(Prefix),
    /// It asks again for this length.
    Counter(u8),
    /// It declines.
    Decline(Reason),
}
