//! What the decisions of an agent of PrefixManager mean for addresses.

ghost use Rattle.grasp_agent.specs.Deciding.{GiversDecide, RequestersDecide};
ghost use Rattle.grasp_laws_agent.specs.Changes.{RepliesChangePools};
ghost use Rattle.grasp_laws_agent.specs.Moves.{MovesAreMade, NothingElseMoves, CursorsTurn, OpeningsGoOn, OpeningsEnd};
ghost use Rattle.grasp_laws_agent.specs.Next.{NextCallsAre};
ghost use Rattle.grasp_agent.specs.Announcing.{ReadersAgree};
ghost use Rattle.grasp_laws_agent.specs.Sending.{LengthsAreSent, PrefixesAreSent, ReturnsAreSent, CallsAreShort};
ghost use Rattle.grasp_agent.specs.Laws.{LengthsAreRead, PrefixesAreRead, GiversOffer, AgentsAreKept, ThereIsADuty, OffersStayListed, DoubtsStay};
ghost use Rattle.grasp_agent.specs.Laws.{GainsAreAccepted};

/// A length and a prefix are read exactly from the values that hold them.
pub fn values_are_read()
    ensures lengths { LengthsAreRead }
    ensures prefixes { PrefixesAreRead }
{}

/// What an agent sends is a value with a short encoding, and is read back; and its calls have short texts, in UTF-8.
pub fn values_are_values()
    ensures lengths { LengthsAreSent }
    ensures prefixes { PrefixesAreSent }
    ensures returns { ReturnsAreSent }
    ensures calls { CallsAreShort }
{}

/// Whether a reader is shown a reply or handed it, its next call and its number are the same.
pub fn readers_agree()
    ensures { ReadersAgree }
{}

/// A giver that is asked for a length, with loops and room enough and something free, offers the least free prefix of the
/// first length that is free.
pub fn givers_offer()
    ensures { GiversOffer }
{}

/// A giver decides as is said of addresses, in both directions: what it offers, what it accepts back, and for which reason
/// it declines.
#[tactic(auto, using(crate::proofs::LawGiver::givers_decide))]
pub fn givers_decide()
    ensures { GiversDecide }
{}

/// One that requests a prefix decides as is said of addresses, in both directions: when it accepts, asks again or declines.
#[tactic(auto, using(crate::proofs::LawRequester::requesters_decide))]
pub fn requesters_decide()
    ensures { RequestersDecide }
{}

/// Whatever an agent is told, wants, returns and replies, what is reserved is exactly what it offers, and it has a next duty.
pub fn agents_are_kept()
    ensures kept { AgentsAreKept }
    ensures duty { ThereIsADuty }
{}

/// An agent's next call is an opening call, its act, the request of its want, that of its return, or the duty that is next,
/// and that duty is one of its own.
#[tactic(auto, using(crate::proofs::LawNext::next_calls_are))]
pub fn next_calls_are()
    ensures { NextCallsAre }
{}

/// What a reply makes of an agent: each move that it tells of has its effect, and where it tells of none nothing but the
/// number, the stage and the cursor changes.
pub fn agent_moves()
    ensures moves { MovesAreMade }
    ensures nothing { NothingElseMoves }
{}

/// The cursor goes on with each duty that is done, and after the last one it is at the first.
pub fn cursors_turn()
    ensures { CursorsTurn }
{}

/// Each opening call is made until it is answered as its kind is; after the three an agent serves, and goes on serving under
/// its number.
pub fn openings_go_on()
    ensures calls { OpeningsGoOn }
    ensures end { OpeningsEnd }
{}

/// An offer stays reserved or in doubt until its session tells what became of it, and no reply takes a prefix out of doubt.
pub fn offers_stay_listed()
    ensures offers { OffersStayListed }
    ensures doubts { DoubtsStay }
{}

/// An address becomes free only with an offer that goes back, or with an acceptance that is done.
pub fn gains_are_accepted()
    ensures { GainsAreAccepted }
{}

/// The pool after a reply is the one before with just the change that the reply makes: nothing, a prefix gained, given, back or
/// in doubt, or at a giver's turn its last offer back and the new one reserved.
#[tactic(auto, using(crate::proofs::LawChanges::replies_change_pools))]
pub fn replies_change_pools()
    ensures { RepliesChangePools }
{}
