//! Calls of a node's agent, of which its doubter is told.

ghost use Rattle.std.specs.Prelude.{◌≡◌};
ghost use Rattle.grasp_doubts.specs.Nodes.{HasDoubter, SeesCall, after_report};

use grasp_agent::PrefixAgent;
use grasp_doubter::Doubter;
use grasp_model_network::{Event, Report, WorldStop};
use grasp_simulator::World;

/// The agent of a node makes its next call and takes the reply. Then its doubter is told of both.
pub(crate) fn call_agent(
    world: &mut World,
    doubter: &mut Doubter,
    node: u8,
    hold: bool,
) -> Result<Report, WorldStop>
    requires { HasDoubter world.old doubter.old node }
    ensures { SeesCall world.old world.new doubter.old doubter.new node hold result }
{
    match world.step(Event::Agent { node, hold }) {
        Ok(report) => {
            see(doubter, world.agent(node), &report);
            Ok(report)
        }
        Err(stop) => Err(stop),
    }
}

/// The doubter is told of what the agent did, as it was reported.
fn see(doubter: &mut Doubter, agent: &PrefixAgent, report: &Report)
    ensures { doubter.new ≡ after_report doubter.old agent.now.pool report.now }
{
    if let Report::Agent { call, reply } = report {
        doubter.saw(agent, call, reply);
    }
}
