//! What holds of each negotiation of a network. They say nothing at run time.

ghost use Rattle.grasp_laws_negotiation.specs.GoingOn.{NegotiationsGoOn, TurnsStay, TurnsLeaveNegotiations};
ghost use Rattle.grasp_laws_negotiation.specs.Grounds.{Grounds};
ghost use Rattle.grasp_laws_negotiation.specs.Knowing.{NegotiationsAreKnown};
ghost use Rattle.grasp_laws_negotiation.specs.Negotiations.{NegotiationsAreInOrder, NegotiationsAreTalks};
ghost use Rattle.grasp_laws_negotiation.specs.Safe.{TalksAreSafe};

use grasp_laws_delivery::{
    records_hold_what_came, streams_are_ready, what_is_said_is_sent_or_queued,
    what_was_said_is_given,
};
use grasp_laws_node_stories::{clear_streams_are_kept, streams_have_stories};

/// What the laws on which those of negotiations stand say, as one.
pub fn grounds_hold()
    ensures { Grounds }
{
    streams_have_stories();
    clear_streams_are_kept();
    streams_are_ready();
    what_is_said_is_sent_or_queued();
    records_hold_what_came();
    what_was_said_is_given();
}

/// Each stream whose first message asks for a negotiation is a talk of two ends that keep to the protocol.
pub fn negotiations_are_talks()
    ensures { NegotiationsAreTalks }
{
    grounds_hold();
}

/// The messages of each negotiation are in the order of the protocol.
pub fn negotiations_are_in_order()
    ensures { NegotiationsAreInOrder }
{
    negotiations_are_talks();
}

/// The steps of each negotiation are fewer than its loop count, and two sides that agree hold one objective.
pub fn talks_are_safe()
    ensures { TalksAreSafe }
{
    negotiations_are_talks();
}

/// What a side of a negotiation saw, offers, accepts and reports tells what was said.
pub fn negotiations_are_known()
    ensures { NegotiationsAreKnown }
{
    negotiations_are_talks();
}

/// What an event does to a negotiation are moves of its two ends.
pub fn negotiations_go_on()
    ensures { NegotiationsGoOn }
{
    grounds_hold();
}

/// While the turn is a side's own and it says nothing, nothing is said but what is invalid, and the side learns nothing.
pub fn turns_stay()
    ensures { TurnsStay }
{
    negotiations_go_on();
}

/// A settling and a restart say nothing in a negotiation, and each side saw what it had seen.
pub fn turns_leave_negotiations()
    ensures { TurnsLeaveNegotiations }
{}
