//! What one that requests a prefix decides (RFC 8992, section 4.1).

ghost use Rattle.std.specs.Prelude.{◌≡◌};
ghost use Rattle.grasp_agent.specs.Decisions.{requester_decision};

use crate::decision::{Reason, RequesterDecision};
use crate::value::offered_prefix;
use crate::want::Want;
use grasp_pool::Pool;
use grasp_types::Objective;

/// Decides on the peer's offer. It takes no memory.
#[tactic(auto, unfolding(crate::specs::Decisions::requester_decision))]
pub(crate) fn ask(pool: &Pool, want: &Want, offer: &Objective) -> RequesterDecision
    ensures { result ≡ requester_decision pool.now want.now.length want.now.longest offer.now.value offer.now.loops }
{
    let Some(prefix) = offered_prefix(&offer.value) else {
        return RequesterDecision::Decline(Reason::BadValue);
    };
    if prefix.length() > want.longest {
        return RequesterDecision::Decline(Reason::TooSmall);
    }
    if prefix.length() < want.length && offer.loops >= 2 {
        return RequesterDecision::Counter(want.length);
    }
    if !pool.can_gain(prefix) {
        return RequesterDecision::Decline(Reason::NotTaken);
    }
    RequesterDecision::Accept(prefix)
}
