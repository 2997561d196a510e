//! Laws of networks whose nodes ask each other about prefixes in doubt. They say nothing at run time.

ghost use Rattle.grasp_laws_doubts.specs.Grounds.{Grounds};
ghost use Rattle.grasp_laws_doubts.specs.Laws.{DoubtedAreReached, SettlingsAreOfDead};

use grasp_laws_accepted::accepted_doubts_agree;
use grasp_laws_floods::initiators_tell_searches;
use grasp_laws_listed::doubted_were_offered;
use grasp_laws_openers::openers_are_told;
use grasp_laws_owned::{
    beginnings_leave_owners, others_leave_owners, owners_keep_serving, owners_leave_by_polls,
};
use grasp_laws_prefixes::{dead_are_found, grounds_hold, offers_are_known};
use grasp_laws_questions::{
    listed_are_asked, questions_begin, requested_sessions_are_wants, requesters_saw,
};

/// The laws on which those of doubters stand.
pub fn doubt_grounds_hold()
    ensures { Grounds }
{
    grounds_hold();
    offers_are_known();
    doubted_were_offered();
    dead_are_found();
    listed_are_asked();
    requesters_saw();
    accepted_doubts_agree();
    requested_sessions_are_wants();
    openers_are_told();
    others_leave_owners();
    beginnings_leave_owners();
    owners_keep_serving();
    owners_leave_by_polls();
}

/// Turns lead to each network that a run of a network of doubters comes to, and so what is so of all those is so of it.
pub fn doubted_are_reached()
    ensures { DoubtedAreReached }
{
    doubt_grounds_hold();
    questions_begin();
    initiators_tell_searches();
}

/// Each prefix that a doubter settles is dead: its offer is on a stream on which it is accepted never.
pub fn settlings_are_of_dead()
    ensures { SettlingsAreOfDead }
{
    doubt_grounds_hold();
    questions_begin();
    initiators_tell_searches();
}
