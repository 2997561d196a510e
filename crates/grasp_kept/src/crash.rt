//! Calls of an agent on a disk that stops.

ghost use Rattle.grasp_kept.specs.Crashes.{CallsUntil, EndsCall, HasBegunCall};
ghost use Rattle.grasp_kept.specs.Nodes.{HasKeeper};

use crate::asking::{try_before, try_behind};
use grasp_agent::Agent;
use grasp_disk::MemDisk;
use grasp_model_network::{Event, WorldStop};
use grasp_simulator::World;
use grasp_store::Keeper;

/// The agent of a node makes its next call, on a disk that stops after so many calls. Where it stops before the agent's call,
/// that isn't made. What the call queues is sent, also where the disk stops behind it.
pub(crate) fn call_until(
    world: &mut World,
    keeper: &mut Keeper<MemDisk>,
    node: u8,
    calls: u64,
) -> Result<(), WorldStop>
    requires { HasKeeper world.old keeper.old node }
    ensures { CallsUntil world.old world.new keeper.old keeper.new node calls result }
{
    let agent = world.agent(node);
    let Ok(call) = agent.next() else {
        return Err(WorldStop::OutOfMemory);
    };
    keeper.stop_after(calls);
    if try_before(keeper, agent, &call) {
        end_call(world, keeper, node, calls)
    } else {
        Ok(())
    }
}

/// The agent of a node makes its next call, before which its disk was asked.
fn end_call(
    world: &mut World,
    keeper: &mut Keeper<MemDisk>,
    node: u8,
    calls: u64,
) -> Result<(), WorldStop>
    requires { HasBegunCall world.old keeper.old node calls }
    ensures { EndsCall world.old world.new keeper.old keeper.new node calls result }
{
    match world.step(Event::Agent { node, hold: false }) {
        Ok(_report) => {
            let _goes = try_behind(keeper, world.agent(node));
            Ok(())
        }
        Err(stop) => Err(stop),
    }
}
