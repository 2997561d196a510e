//! A session in which an agent gives a prefix.

ghost use Rattle.std.specs.Prelude.{◌≡◌, None};
ghost use Rattle.grasp_agent.specs.Replies.{offering, deciding};

use crate::decision::GiverDecision;
use grasp_types::{Handle, Prefix};

/// A giving session.
#[derive(Clone, Copy, Debug, PartialEq, Eq)]
pub(crate) struct Giving {
    pub(crate) handle: Handle,
    /// The last offer of this agent, unless it was taken back. It is reserved.
    pub(crate) offer: Option<Prefix>,
    /// Whether this agent has offered nothing in this session yet.
    pub(crate) first: bool,
}

impl Giving {
    /// The session without an offer.
    pub(crate) fn without_offer(self) -> Giving
        ensures { result ≡ offering self None }
    {
        Giving {
            handle: self.handle,
            offer: None,
            first: self.first,
        }
    }

    /// The session after its agent has decided.
    pub(crate) fn after(self, decision: &GiverDecision) -> Giving
        ensures { result ≡ deciding self decision.now }
    {
        match decision {
            GiverDecision::Offer(prefix) => Giving {
                handle: self.handle,
                offer: Some(*prefix),
                first: false,
            },
            GiverDecision::Accept(_) | GiverDecision::Decline(_) => self.without_offer(),
        }
    }
}
