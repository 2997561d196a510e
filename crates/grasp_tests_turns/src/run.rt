//! What a step comes to.

ghost use Rattle.grasp_model_network.specs.Events.{IsFitAmong};
ghost use Rattle.grasp_model_network.specs.Plans.{IsNode};
ghost use Rattle.grasp_tests_turns.specs.Benches.{IsStepFit, StandsForTwo};

use crate::bench::{agent_of, happen, is_dead, restart, settle};
use crate::image::{bare, image_of, image_with};
use crate::step::Step;
use crate::words::report_word;
use grasp_cbor::{Chars, OutOfMemory};
use grasp_model_network::{Event, WorldStop};
use grasp_pool::PoolImage;
use grasp_simulator::World;
use grasp_types::{Call, Kind, Prefix};
use std::alloc::Global;

/// All bytes of a stream that are left are fewer than this.
const ALL_BYTES: u64 = 1_000_000;

/// So many outputs are sent by a drain.
const ALL_OUTPUTS: u32 = 256;

/// The agent that isn't the node's own.
const OTHER_ASA: u32 = 2;

/// A step is done. The answer is what it comes to.
pub fn run_step(
    alloc: Global,
    world: &mut World,
    prefix: Prefix,
    step: Step,
) -> Result<&'static str, WorldStop>
    requires stands { StandsForTwo world.old }
    requires fit { IsStepFit step }
    ensures { StandsForTwo world.new }
{
    match step {
        Step::Datagram(index) => event_word(world, Event::Datagram { index, hold: false }),
        Step::Arrive(stream) => event_word(
            world,
            Event::Arrive {
                stream,
                hold: false,
            },
        ),
        Step::Bytes(stream, far) => event_word(
            world,
            Event::Bytes {
                stream,
                far,
                count: ALL_BYTES,
                hold: false,
            },
        ),
        Step::Want(node) => want(world, node),
        Step::Agent(node, hold) => event_word(world, Event::Agent { node, hold }),
        Step::Register(node) => register(alloc, world, node),
        Step::Discover(node) => discover(alloc, world, node),
        Step::Drain(node) => event_word(
            world,
            Event::Drain {
                node,
                max: ALL_OUTPUTS,
            },
        ),
        Step::Restart(node) => begin_anew(alloc, world, node),
        Step::Empty(node) => begin_with(world, node, bare(alloc)),
        Step::Greedy(node) => begin_greedy(alloc, world, node, prefix),
        Step::Settle(node) => settle_first(world, node, prefix),
        Step::Dead(node) => Ok(dead_word(world, node, prefix)),
        Step::Tell(node) => Ok(held_word(world, node, prefix)),
    }
}

/// An event happens. The answer is the word of its report.
fn event_word(world: &mut World, event: Event) -> Result<&'static str, WorldStop>
    requires stands { StandsForTwo world.old }
    requires fit { IsFitAmong 2 2 event }
    ensures { StandsForTwo world.new }
{
    let report = happen(world, event)?;
    Ok(report_word(&report))
}

/// The other one of the two nodes.
fn other(node: u8) -> u8
    ensures { IsNode 2 result }
{
    if node == 1 { 2 } else { 1 }
}

/// The node is to get a prefix of 64 bits from the other one.
fn want(world: &mut World, node: u8) -> Result<&'static str, WorldStop>
    requires stands { StandsForTwo world.old }
    requires node { IsNode 2 node }
    ensures { StandsForTwo world.new }
{
    event_word(
        world,
        Event::Want {
            node,
            length: 64,
            longest: 64,
            peer: other(node),
        },
    )
}

/// Another agent of the node registers.
fn register(alloc: Global, world: &mut World, node: u8) -> Result<&'static str, WorldStop>
    requires stands { StandsForTwo world.old }
    requires node { IsNode 2 node }
    ensures { StandsForTwo world.new }
{
    let Ok(name) = Chars::of(alloc, "other") else {
        return Err(WorldStop::OutOfMemory);
    };
    event_word(
        world,
        Event::Api {
            node,
            asa: 0,
            call: Call::RegisterAsa { name },
            hold: false,
        },
    )
}

/// It looks for an objective.
fn discover(alloc: Global, world: &mut World, node: u8) -> Result<&'static str, WorldStop>
    requires stands { StandsForTwo world.old }
    requires node { IsNode 2 node }
    ensures { StandsForTwo world.new }
{
    let Ok(name) = Chars::of(alloc, "sought") else {
        return Err(WorldStop::OutOfMemory);
    };
    event_word(
        world,
        Event::Api {
            node,
            asa: OTHER_ASA,
            call: Call::Discover {
                name,
                kind: Kind::Negotiation,
                loops: 2,
                timeout: 1000,
            },
            hold: false,
        },
    )
}

/// The node begins anew with what it has, where it may.
fn begin_anew(alloc: Global, world: &mut World, node: u8) -> Result<&'static str, WorldStop>
    requires stands { StandsForTwo world.old }
    requires node { IsNode 2 node }
    ensures { StandsForTwo world.new }
{
    let Ok(image) = image_at(alloc, world, node) else {
        return Err(WorldStop::OutOfMemory);
    };
    begin_with(world, node, image)
}

/// An image of what the node has.
fn image_at(alloc: Global, world: &World, node: u8) -> Result<PoolImage, OutOfMemory>
    requires stands { StandsForTwo world.now }
    requires node { IsNode 2 node }
{
    image_of(alloc, agent_of(world, node).pool())
}

/// The node begins anew with the prefix, where it may.
fn begin_greedy(
    alloc: Global,
    world: &mut World,
    node: u8,
    prefix: Prefix,
) -> Result<&'static str, WorldStop>
    requires stands { StandsForTwo world.old }
    requires node { IsNode 2 node }
    ensures { StandsForTwo world.new }
{
    let Ok(image) = image_with(alloc, prefix) else {
        return Err(WorldStop::OutOfMemory);
    };
    begin_with(world, node, image)
}

/// The node begins anew by the image, where it may.
fn begin_with(world: &mut World, node: u8, image: PoolImage) -> Result<&'static str, WorldStop>
    requires stands { StandsForTwo world.old }
    requires node { IsNode 2 node }
    ensures { StandsForTwo world.new }
{
    if restart(world, node, image)? {
        Ok("restarted")
    } else {
        Ok("not restarted")
    }
}

/// The prefix is settled at the node, where it may be.
fn settle_first(world: &mut World, node: u8, prefix: Prefix) -> Result<&'static str, WorldStop>
    requires stands { StandsForTwo world.old }
    requires node { IsNode 2 node }
    ensures { StandsForTwo world.new }
{
    if settle(world, node, prefix)? {
        Ok("settled")
    } else {
        Ok("not settled")
    }
}

/// Whether the prefix may be settled at the node.
fn dead_word(world: &World, node: u8, prefix: Prefix) -> &'static str
    requires stands { StandsForTwo world.now }
    requires node { IsNode 2 node }
{
    if is_dead(world, node, prefix) {
        "dead"
    } else {
        "not dead"
    }
}

/// What the node has of the prefix.
fn held_word(world: &World, node: u8, prefix: Prefix) -> &'static str
    requires stands { StandsForTwo world.now }
    requires node { IsNode 2 node }
{
    let pool = agent_of(world, node).pool();
    if pool.is_free(prefix) {
        "holds it"
    } else if pool.is_reserved(prefix) {
        "has it reserved"
    } else if pool.is_doubtful(prefix) {
        "has it in doubt"
    } else {
        "doesn't have it"
    }
}
