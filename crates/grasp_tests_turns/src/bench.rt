//! A network of two nodes on one link, of which the first has a root, and what is done in it.

ghost use Rattle.std.specs.Prelude.{◌≡◌, IfOk};
ghost use Rattle.grasp_model_network.specs.Events.{IsFitAmong};
ghost use Rattle.grasp_model_network.specs.Plans.{IsNode};
ghost use Rattle.grasp_simulator.specs.Lending.{TellsDead};
ghost use Rattle.grasp_tests_turns.specs.Benches.{MayTake, StandsForTwo};

use grasp_agent::PrefixAgent;
use grasp_cbor::OutOfMemory;
use grasp_model_network::{Event, Report, RootAt, Turn, WorldPlan, WorldStop};
use grasp_pool::{PoolImage, RootPrefix};
use grasp_simulator::World;
use grasp_types::{List, Prefix};
use std::alloc::Global;

/// The root of the first node is fd01::/32.
const ROOT: u128 = 0xfd01_0000_0000_0000_0000_0000_0000_0000;

/// The first prefix of 64 bits in the root.
pub fn first_prefix() -> Option<Prefix> {
    Prefix::of(ROOT, 64)
}

/// The plan of the network.
fn plan_of(alloc: Global) -> Result<WorldPlan, OutOfMemory>
    ensures { IfOk result (λ plan. plan.nodes ≡ 2) }
{
    let mut roots = List::new(alloc);
    roots.push(RootAt {
        node: 1,
        root: RootPrefix {
            address: ROOT,
            length: 32,
        },
    })?;
    let mut line = List::new(alloc);
    line.push(1)?;
    line.push(2)?;
    let mut links = List::new(alloc);
    links.push(line)?;
    Ok(WorldPlan {
        nodes: 2,
        limit: 2048,
        roots,
        links,
    })
}

/// The network, in which nothing has happened.
pub fn open(alloc: Global) -> Result<World, OutOfMemory>
    ensures { IfOk result StandsForTwo }
{
    let plan = plan_of(alloc)?;
    if plan.check() {
        World::open(alloc, plan)
    } else {
        Err(OutOfMemory)
    }
}

/// A turn is taken.
fn take(world: &mut World, turn: Turn) -> Result<Report, WorldStop>
    requires { MayTake world.old turn }
    ensures { StandsForTwo world.new }
{
    world.turn(turn)
}

/// An event happens.
pub fn happen(world: &mut World, event: Event) -> Result<Report, WorldStop>
    requires stands { StandsForTwo world.old }
    requires fit { IsFitAmong 2 2 event }
    ensures { StandsForTwo world.new }
{
    take(world, Turn::Event(event))
}

/// The agent of the node.
pub fn agent_of(world: &World, node: u8) -> &PrefixAgent
    requires stands { StandsForTwo world.now }
    requires node { IsNode 2 node }
{
    world.agent(node)
}

/// Whether the prefix may be settled at the node.
pub fn is_dead(world: &World, node: u8, prefix: Prefix) -> bool
    requires stands { StandsForTwo world.now }
    requires node { IsNode 2 node }
    ensures { TellsDead world.now node prefix result }
{
    world.dead(node, prefix)
}

/// The prefix is settled at the node, where it may be. The answer is whether it was.
pub fn settle(world: &mut World, node: u8, prefix: Prefix) -> Result<bool, WorldStop>
    requires stands { StandsForTwo world.old }
    requires node { IsNode 2 node }
    ensures { StandsForTwo world.new }
{
    if !is_dead(world, node, prefix) {
        return Ok(false);
    }
    let _nothing = take(world, Turn::Settle { node, prefix })?;
    Ok(true)
}

/// The node begins anew by this image, where it may. The answer is whether it did.
pub fn restart(world: &mut World, node: u8, image: PoolImage) -> Result<bool, WorldStop>
    requires stands { StandsForTwo world.old }
    requires node { IsNode 2 node }
    ensures { StandsForTwo world.new }
{
    if !world.may_restart(node, &image) {
        return Ok(false);
    }
    let _nothing = take(world, Turn::Restart { node, image })?;
    Ok(true)
}
