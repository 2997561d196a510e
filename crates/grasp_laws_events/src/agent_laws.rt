//! What agents call and what nodes dial. They say nothing at run time.

ghost use Rattle.grasp_laws_events.specs.Acting.{ActsAreCalled, DutiesAreCalled, OneLoopHasNoTurn};
ghost use Rattle.grasp_laws_events.specs.Dialling.{LocatorsAreDialled};

/// What an agent has decided is its next call, with these texts and values.
pub fn acts_are_called()
    ensures { ActsAreCalled }
{}

/// An agent opens with these calls, and each of its duties is this one.
pub fn duties_are_called()
    ensures { DutiesAreCalled }
{}

/// One that asks for a negotiation of one loop never has the turn in it.
pub fn one_loop_has_no_turn()
    ensures { OneLoopHasNoTurn }
{}

/// A node dials IPv6 and IPv4 addresses with TCP, and nothing else.
pub fn locators_are_dialled()
    ensures { LocatorsAreDialled }
{}
