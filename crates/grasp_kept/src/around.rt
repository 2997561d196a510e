//! Events of a node, with its disk asked around them.

ghost use Rattle.grasp_kept.specs.Nodes.{CanTell, HasKeeper, MakesCall, Tells};

use crate::asking::{ask_before, ask_behind};
use grasp_agent::Agent;
use grasp_cbor::OutOfMemory;
use grasp_disk::MemDisk;
use grasp_model_network::{Event, Report, WorldStop};
use grasp_simulator::World;
use grasp_store::Keeper;

/// The agent of a node makes its next call. Its disk is asked before the call and behind it.
pub(crate) fn call(
    world: &mut World,
    keeper: &mut Keeper<MemDisk>,
    node: u8,
    hold: bool,
) -> Result<Report, WorldStop>
    requires { HasKeeper world.old keeper.old node }
    ensures { MakesCall world.old world.new keeper.old keeper.new node hold result }
{
    let agent = world.agent(node);
    match agent.next() {
        Ok(call) => ask_before(keeper, agent, &call),
        Err(OutOfMemory) => return Err(WorldStop::OutOfMemory),
    }
    match world.step(Event::Agent { node, hold }) {
        Ok(report) => {
            ask_behind(keeper, world.agent(node));
            Ok(report)
        }
        Err(stop) => Err(stop),
    }
}

/// The agent of a node is told of a want or a return. Its disk is asked behind that.
pub(crate) fn tell(
    world: &mut World,
    keeper: &mut Keeper<MemDisk>,
    node: u8,
    event: Event,
) -> Result<Report, WorldStop>
    requires { CanTell world.old keeper.old node event }
    ensures { Tells world.old world.new keeper.old keeper.new node event result }
{
    match world.step(event) {
        Ok(report) => {
            ask_behind(keeper, world.agent(node));
            Ok(report)
        }
        Err(stop) => Err(stop),
    }
}
