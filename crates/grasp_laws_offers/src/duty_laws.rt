//! Laws of the sessions of agents of prefixes. They say nothing at run time.

ghost use Rattle.grasp_laws_offers.specs.Duties.{OwnSessionsAreDuties};

use grasp_laws_agents::{calls_mean, own_sessions_go_on};
use grasp_laws_node::ties_are_kept;

/// Each live session of the agent of prefixes of a node is one of its duties: that of its want, that of its return, or one in which
/// it gives.
pub fn own_sessions_are_duties()
    ensures { OwnSessionsAreDuties }
{
    ties_are_kept();
    calls_mean();
    own_sessions_go_on();
}
