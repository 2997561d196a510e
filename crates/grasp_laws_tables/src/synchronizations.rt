//! What a session for synchronization hears and tells. These functions say nothing at run time.

ghost use Rattle.grasp_laws_tables.specs.Synchronizations.{OutcomesCame, RequestersWait, SynchsAreHeard};

/// A synchronized outcome holds the objective of the M_SYNCH that came, which is of this session and has the name that was
/// asked for.
#[tactic(auto, using(crate::proofs::SynchronizationLaws::outcomes_came))]
pub fn synchronized_outcomes_came()
    ensures { OutcomesCame }
{}

/// An M_SYNCH is kept exactly where the session for synchronization goes on, it is the peer's turn, and its number and the
/// objective's name are the session's; the session then ends with its objective.
#[tactic(auto, using(crate::proofs::SynchronizationLaws::heard))]
pub fn synchs_are_heard()
    ensures { SynchsAreHeard }
{}

/// In a session for synchronization it is never the requester's turn.
#[tactic(auto, using(crate::proofs::SynchronizationLaws::requesters_wait))]
pub fn requesters_wait()
    ensures { RequestersWait }
{}
