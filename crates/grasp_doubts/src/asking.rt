//! A question that a node's doubter is to ask.

ghost use Rattle.grasp_doubts.specs.Nodes.{Asks, HasDoubter};

use crate::addresses::locator_of;
use grasp_doubter::{AskFault, Doubter};
use grasp_simulator::World;
use grasp_types::Prefix;

/// The doubter of a node is to ask at this peer whether the prefix was ever accepted. It takes no memory.
pub(crate) fn ask(
    world: &World,
    doubter: &mut Doubter,
    node: u8,
    prefix: Prefix,
    peer: u8,
) -> Result<(), AskFault>
    requires { HasDoubter world.now doubter.old node }
    ensures { Asks world.now doubter.old doubter.new node prefix peer result }
{
    doubter.ask(world.agent(node), prefix, locator_of(peer))
}
