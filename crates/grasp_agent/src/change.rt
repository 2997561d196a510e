//! What a reply changes in the pool of an agent of PrefixManager.

ghost use Rattle.std.specs.Prelude.{◌≡◌, Some};
ghost use Rattle.grasp_agent.specs.Changes.{back_change, act_change, returning_change, settled_change, settling_change, heard_change, give_change};

use crate::act::Act;
use crate::giving::Giving;
use crate::replies::{is_done, refused};
use grasp_types::{By, Outcome, Prefix, Progress, Reply};

/// What a reply changes in the pool (RFC 8992, section 4.2).
#[derive(Clone, Copy, Debug, PartialEq, Eq)]
pub enum PoolChange {
    /// Nothing.
    Stays,
    /// This prefix is held: its acceptance is done.
    Gained(Prefix),
    /// This prefix is the peer's: it accepted the offer.
    Given(Prefix),
    /// This prefix is free again: the peer declined the offer, or it was never sent.
    Back(Prefix),
    /// This prefix is in doubt: the session of its offer ended otherwise.
    Doubted(Prefix),
    /// The turn is the giver's: its last offer, where there is one, is free again, and it decides anew what it offers.
    Decided(Option<Prefix>),
}

/// A prefix that wasn't offered goes back.
fn back_change(prefix: Option<Prefix>) -> PoolChange
    ensures { result ≡ back_change prefix }
{
    match prefix {
        Some(prefix) => PoolChange::Back(prefix),
        None => PoolChange::Stays,
    }
}

/// What the reply to an act changes.
pub(crate) fn act_change(act: Act, reply: &Reply) -> PoolChange
    ensures { result ≡ act_change act reply.now }
{
    match act {
        Act::Offer { prefix, .. } if refused(reply).is_some() => PoolChange::Back(prefix),
        Act::Accept { prefix, .. } if is_done(reply) => PoolChange::Gained(prefix),
        _ => PoolChange::Stays,
    }
}

/// What the reply to the request of a return of this prefix changes.
pub(crate) fn returning_change(prefix: Option<Prefix>, reply: &Reply) -> PoolChange
    ensures { result ≡ returning_change prefix reply.now }
{
    if refused(reply).is_some() {
        back_change(prefix)
    } else {
        PoolChange::Stays
    }
}

/// What becomes of an offer when its session ends.
fn settled_change(prefix: Prefix, outcome: &Outcome) -> PoolChange
    ensures { result ≡ settled_change prefix outcome.now }
{
    match outcome {
        Outcome::Agreed {
            by: By::Theirs,
            objective: _,
        } => PoolChange::Given(prefix),
        Outcome::Declined {
            by: By::Theirs,
            reason: _,
        } => PoolChange::Back(prefix),
        _ => PoolChange::Doubted(prefix),
    }
}

/// What becomes of the last offer of a session that ended, where there is one.
fn settling_change(offer: Option<Prefix>, outcome: &Outcome) -> PoolChange
    ensures { result ≡ settling_change offer outcome.now }
{
    match offer {
        Some(prefix) => settled_change(prefix, outcome),
        None => PoolChange::Stays,
    }
}

/// What the progress of the session of a return of this prefix changes.
pub(crate) fn heard_change(prefix: Option<Prefix>, progress: &Progress) -> PoolChange
    ensures { result ≡ heard_change prefix (Some progress.now) }
{
    match progress {
        Progress::Ended(outcome) => settling_change(prefix, outcome),
        _ => PoolChange::Stays,
    }
}

/// What the progress of a giving session changes.
pub(crate) fn give_change(giving: Giving, progress: &Progress) -> PoolChange
    ensures { result ≡ give_change (Some giving) (Some progress.now) }
{
    match progress {
        Progress::NotYet => PoolChange::Stays,
        Progress::Turn(_) => PoolChange::Decided(giving.offer),
        Progress::Ended(outcome) => settling_change(giving.offer, outcome),
    }
}
