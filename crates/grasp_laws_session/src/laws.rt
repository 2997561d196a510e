//! Laws of a negotiation between two ends (RFC 8990, section 2.5.5).

ghost use Rattle.std.specs.Prelude.{◌≡◌, List, [], ◌∷◌};
ghost use Rattle.grasp_cbor.specs.DataItem.{unsigned};
ghost use Rattle.grasp_types.specs.declared.session.By.TheVariants.{Mine, Theirs};
ghost use Rattle.grasp_types.specs.declared.session.Outcome.TheVariants.{Agreed};
ghost use Rattle.grasp_session.specs.Conversation.{steps};
ghost use Rattle.grasp_laws_session.specs.Turns.{TurnsSay, TurnsHold, KnownHolds, OffersHold};
ghost use Rattle.grasp_laws_session.specs.Moves.{QuietIsReached, MovesReach, RunsJoin, RequestStays, RequesterIsPresent, AbsentTookNothing};
ghost use Rattle.grasp_laws_session.specs.Moves.{HeardNext, InboxIsNext};
ghost use Rattle.grasp_laws_session.specs.Sample.{sample, outcome_at};
ghost use Rattle.grasp_session.specs.Laws.{LegalIsGrammar, ConversationIsGrammar, StepsBounded, RunsAreLegal, RunsAreBounded, ViewsTrail};
ghost use Rattle.grasp_session.specs.Laws.{SilentUnseen, TakenInOrder, NoneIsBad, BothAgree, OffersStand, OutcomesSay, OutcomesStay, AcceptsTheLast};
ghost use Rattle.grasp_session.specs.Laws.{PeerIsPresent, MovesFollow, FirstIsRequest};
ghost use Rattle.grasp_session.specs.Runs.{CallsAreInOrder, CallsGoOn, NumbersAreNew};
ghost use Rattle.grasp_laws_session.specs.Expiry.{ExpiryEnds, ExpiryGoesOn, ExpiryStops};
ghost use Rattle.grasp_session.specs.Made.{NoneAreReached, CallsTouchOne, LiveComesFirst, ViewsAreBuilt, NoneAreFresh, FreshStay};
ghost use Rattle.grasp_laws_session.specs.InWords.{TurnsAreParity, DeadlinesAreLargest, StepsLowerLoops};
ghost use Rattle.grasp_laws_session.specs.Unstepped.{UnsteppedHearNone};
ghost use Rattle.grasp_session.specs.Says.{StartsSay, ChecksSay, OldestIsLeast};

/// A conversation is legal exactly where it is the beginning of a negotiation of whole turns, also where invalid
/// messages count.
pub fn legal_is_grammar()
    ensures plain { LegalIsGrammar }
    ensures whole { ConversationIsGrammar }
{}

/// Whatever the peer sends, the steps that an end sends and keeps are fewer than the request's loop count, and none
/// where that is 0.
#[tactic(auto, using(crate::proofs::Bounds::view_bounded))]
pub fn steps_bounded()
    ensures { StepsBounded }
{}

/// The conversation of any run is legal, and its steps are fewer than the request's loop count, and none where that
/// is 0.
pub fn runs_are_legal()
    ensures legal { RunsAreLegal }
    ensures bounded { RunsAreBounded }
{}

/// A transcript is an earlier part of the conversation, and the whole where the turn is its own or an end stands.
pub fn views_trail()
    ensures views { ViewsTrail }
    ensures unseen { SilentUnseen }
{}

/// Messages are taken in order. Until its outcome an end keeps each one, and since then none.
pub fn taken_in_order()
    ensures taken { TakenInOrder }
    ensures kept { NoneIsBad }
{}

/// Two ends that agree hold one objective.
pub fn both_agree()
    ensures { BothAgree }
{}

/// An offer that the other side accepts is the last one, and its end kept no answer before.
pub fn offers_stand()
    ensures { OffersStand }
{}

/// What an outcome says, and that it stays.
pub fn outcomes_say()
    ensures says { OutcomesSay }
    ensures stay { OutcomesStay }
{}

/// An end that may accept accepts its peer's last offer, which the peer knows to be unanswered.
pub fn accepts_the_last()
    ensures last { AcceptsTheLast }
    ensures peer { PeerIsPresent }
{}

/// A move adds to the conversation only what may follow.
#[tactic(auto, using(crate::proofs::Growing::moves_follow))]
pub fn moves_follow()
    ensures { MovesFollow }
{}

/// The first message that near says is its request, also where invalid messages count.
#[tactic(auto, using(crate::proofs::Firsts::first_is_request))]
pub fn first_is_request()
    ensures { FirstIsRequest }
{}

/// A talk before any move is reached, and moves lead from a reached talk to a reached one.
pub fn moves_reach()
    ensures start { QuietIsReached }
    ensures more { MovesReach }
    ensures join { RunsJoin }
{}

/// An end whose session goes on and whose turn it is knows the whole conversation; no end stands in it, and the other
/// side has offered.
pub fn turns_say()
    ensures { TurnsSay }
{}

/// While it is a side's turn nothing but its own message changes the conversation or what it knows of it, and its offer
/// is changed by nothing but its own request or step.
pub fn turns_hold()
    ensures turn { TurnsHold }
    ensures known { KnownHolds }
    ensures offer { OffersHold }
{}

/// Once something was said the request stays, and near has a transcript.
pub fn requests_stay()
    ensures stay { RequestStays }
    ensures present { RequesterIsPresent }
{}

/// An end takes the other side's messages one after the other, and none before it has a transcript or declined.
pub fn next_is_heard()
    ensures heard { HeardNext }
    ensures inbox { InboxIsNext }
    ensures absent { AbsentTookNothing }
{}

/// After any calls of a table the steps of each session are fewer than its request's loop count, and none where that
/// is 0; no number is used twice, and no two live sessions have one stream.
pub fn calls_are_in_order()
    ensures order { CallsAreInOrder }
    ensures new { NumbersAreNew }
{}

/// A negotiation that ends in agreement, and in which the third offer is the last.
pub fn some_talk_agrees()
    ensures near { outcome_at sample.near.stage ≡ Some (Agreed Mine (record { name = 80 ∷ []; flags = 3; loops = 3; value = Some (unsigned 4) })) }
    ensures far { outcome_at sample.far.stage ≡ Some (Agreed Theirs (record { name = 80 ∷ []; flags = 3; loops = 3; value = Some (unsigned 4) })) }
    ensures steps { steps sample.said ≡ 3 }
{}

/// What the answers of `start` and `check` say: where a session begins, and for which reasons an act is refused, in
/// which order.
pub fn answers_say()
    ensures start { StartsSay }
    ensures check { ChecksSay }
{}

/// A look-up gives the live session of the least number that passes, and none exactly where none passes.
#[tactic(auto, using(crate::proofs::Streams::oldest_least))]
pub fn look_ups_say()
    ensures { OldestIsLeast }
{}

/// One more call leads from a table that calls lead to, to another such table.
pub fn calls_go_on()
    ensures none { NoneAreReached }
    ensures more { CallsGoOn }
{}

/// A call touches one session, by one deed; of the sessions of a stream the live one is found first; and what an end
/// saw is its request and the deeds since.
pub fn calls_touch_one()
    ensures one { CallsTouchOne }
    ensures stream { LiveComesFirst }
    ensures built { ViewsAreBuilt }
{}

/// A live session that no agent has taken has its request alone, where the node itself says in it only what ends it.
pub fn untaken_are_fresh()
    ensures none { NoneAreFresh }
    ensures stay { FreshStay }
{}

/// A listener that has made no step has the turn, and knows no offer of the other end but the request.
pub fn unstepped_hear_none()
    ensures { UnsteppedHearNone }
{}

/// So many calls of `expire_one` as there are places leave none that is due; and where it first answers `None`, these
/// were all.
pub fn expiry_ends()
    ensures ends { ExpiryEnds }
    ensures more { ExpiryGoesOn }
    ensures stops { ExpiryStops }
{}

/// What a transcript tells, whatever the peer sent: the turn by the number of steps, and the deadline as the largest of
/// the times to which its messages let it go on.
pub fn transcripts_say()
    ensures turn { TurnsAreParity }
    ensures deadline { DeadlinesAreLargest }
{}

/// The steps of a legal conversation are as many as its loop count has fallen by.
pub fn steps_lower_loops()
    ensures { StepsLowerLoops }
{}
