//! The sessions of agents of prefixes. They say nothing at run time.

ghost use Rattle.grasp_laws_questions.specs.Leaving.{AgentsLeaveByPolls};
ghost use Rattle.grasp_laws_questions.specs.Wanting.{RequestedSessionsAreWants};

use grasp_laws_agents::{agents_give, agents_serve};
use grasp_laws_network::nodes_are_sound;
use grasp_laws_offers::own_sessions_are_duties;
use grasp_laws_owned::owners_leave_by_polls;

/// A live session that a node's agent of prefixes has requested, and whose request gives nothing back, is that of the agent's want.
pub fn requested_sessions_are_wants()
    ensures { RequestedSessionsAreWants }
{
    agents_give();
    own_sessions_are_duties();
}

/// A session of an agent of prefixes leaves only by the agent's poll, which tells its outcome.
pub fn agents_leave_by_polls()
    ensures { AgentsLeaveByPolls }
{
    agents_serve();
    nodes_are_sound();
    owners_leave_by_polls();
}
