//! Laws of nodes that run as members of a network. They say nothing at run time.

ghost use Rattle.grasp_laws_members.specs.Coming.{GivesWhatComes};
ghost use Rattle.grasp_laws_members.specs.Laws.{ClocksBeginSteps, MembersTakeTurns};

/// Where members run, and are given what the network can give them, turns lead to each network on the way, and in the last one each of these
/// members stands, with its agent, as it does after what happened at it.
#[tactic(auto, using(crate::proofs::Courses::members_take_turns))]
pub fn members_take_turns()
    ensures { MembersTakeTurns }
{}

/// A clock begins a step of its member's node, and changes nothing else in the network.
#[tactic(auto, using(crate::proofs::Clock::clocks_begin_steps))]
pub fn clocks_begin_steps()
    ensures { ClocksBeginSteps }
{}

/// What the events of a network bring to a member, the network can give it: so what is asked of the world outside can be met.
#[tactic(auto, using(crate::proofs::Coming::gives_what_comes))]
pub fn gives_what_comes()
    ensures { GivesWhatComes }
{}
