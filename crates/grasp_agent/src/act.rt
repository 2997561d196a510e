//! What an agent of PrefixManager has decided and not yet done.

ghost use Rattle.std.specs.Prelude.{◌≡◌, IfOk};
ghost use Rattle.grasp_agent.specs.Calls.{act_call};
ghost use Rattle.grasp_agent.specs.Replies.{want_act, give_act};
ghost use Rattle.grasp_agent.specs.States.{accepted_by, offered_by};

use crate::decision::{GiverDecision, Reason, RequesterDecision};
use crate::value::{length_value, prefix_value};
use grasp_cbor::{Chars, OutOfMemory};
use grasp_types::{Call, Handle, Prefix, Verdict};
use std::alloc::Global;

/// An act in a session.
#[derive(Clone, Copy, Debug, PartialEq, Eq)]
pub(crate) enum Act {
    /// Offers a prefix in the giving session at this place.
    Offer {
        place: u64,
        handle: Handle,
        prefix: Prefix,
    },
    /// Asks again for a length.
    Counter {
        handle: Handle,
        length: u8,
    },
    /// Accepts a prefix.
    Accept {
        handle: Handle,
        prefix: Prefix,
    },
    /// Declines.
    Decline {
        handle: Handle,
        reason: Reason,
    },
}

impl Act {
    /// A decision in the session of a want.
    pub(crate) fn of_want(handle: Handle, decision: RequesterDecision) -> Act
        ensures { result ≡ want_act handle decision }
    {
        match decision {
            RequesterDecision::Accept(prefix) => Act::Accept { handle, prefix },
            RequesterDecision::Counter(length) => Act::Counter { handle, length },
            RequesterDecision::Decline(reason) => Act::Decline { handle, reason },
        }
    }

    /// A decision in the giving session at this place.
    pub(crate) fn of_giver(place: u64, handle: Handle, decision: GiverDecision) -> Act
        ensures { result ≡ give_act place handle decision }
    {
        match decision {
            GiverDecision::Offer(prefix) => Act::Offer {
                place,
                handle,
                prefix,
            },
            GiverDecision::Accept(prefix) => Act::Accept { handle, prefix },
            GiverDecision::Decline(reason) => Act::Decline { handle, reason },
        }
    }

    /// The call that does it.
    pub(crate) fn call(self, alloc: Global) -> Result<Call, OutOfMemory>
        ensures { IfOk result (λ call. call ≡ act_call self) }
    {
        match self {
            Act::Offer {
                place: _,
                handle,
                prefix,
            } => Ok(Call::NegotiateStep {
                handle,
                value: prefix_value(alloc, prefix)?,
            }),
            Act::Counter { handle, length } => Ok(Call::NegotiateStep {
                handle,
                value: length_value(alloc, length)?,
            }),
            Act::Accept { handle, prefix: _ } => Ok(Call::EndNegotiate {
                handle,
                verdict: Verdict::Accept,
            }),
            Act::Decline { handle, reason } => Ok(Call::EndNegotiate {
                handle,
                verdict: Verdict::Decline(Some(Chars::of(alloc, reason.text())?)),
            }),
        }
    }
}

/// The prefix of an act of acceptance.
pub(crate) fn accepted_by(act: &Option<Act>) -> Option<Prefix>
    ensures { result ≡ accepted_by act.now }
{
    match act {
        Some(Act::Accept { prefix, .. }) => Some(*prefix),
        _ => None,
    }
}

/// The offer of an act.
pub(crate) fn offered_by(act: &Option<Act>) -> Option<Prefix>
    ensures { result ≡ offered_by act.now }
{
    match act {
        Some(Act::Offer { prefix, .. }) => Some(*prefix),
        _ => None,
    }
}
