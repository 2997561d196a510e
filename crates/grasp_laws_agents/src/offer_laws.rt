//! What the agents of prefixes in a network offer. They say nothing at run time.

ghost use Rattle.grasp_laws_agents.specs.Calls.{CallsMean};
ghost use Rattle.grasp_laws_agents.specs.OfferLaws.{AgentsGive, AgentsMove};

use crate::agent_laws::own_sessions_go_on;
use grasp_laws_node::{
    end_means, listen_means, poll_means, request_means, step_means, ties_are_kept,
};

/// What the answers of an agent's calls mean: the laws of a node's calls, as one.
pub fn calls_mean()
    ensures { CallsMean }
{
    step_means();
    end_means();
    poll_means();
    listen_means();
    request_means();
}

/// What each agent of prefixes offers is the last offer of its session, and each open offer of a live session is its own.
pub fn agents_give()
    ensures { AgentsGive }
{
    ties_are_kept();
    calls_mean();
    own_sessions_go_on();
}

/// The next call of an agent frees only an offer that wasn't accepted, what was to be returned and wasn't requested, or what it accepts itself.
pub fn agents_move()
    ensures { AgentsMove }
{
    ties_are_kept();
    calls_mean();
    own_sessions_go_on();
}
