//! Doubters that are opened, and their opening calls.

ghost use Rattle.std.specs.Prelude.{OnOk, IfOk};
ghost use Rattle.grasp_model_network.specs.Plans.{IsGoodPlan};
ghost use Rattle.grasp_doubts.specs.Opening.{AreOpened, CanCall, CanOpen, HasNetwork, MakesOpeningCall, OpensCalls};

use crate::addresses::address_of;
use crate::calling::DOUBTER;
use grasp_cbor::OutOfMemory;
use grasp_doubter::{Doubter, agent_name, objective_name};
use grasp_laws_questions::questions_begin;
use grasp_model_network::{Event, WorldPlan};
use grasp_simulator::World;
use grasp_types::{Call, Flags};
use std::alloc::Global;

/// A doubter for each node of the plan, which has seen nothing, and has made its opening calls.
pub(crate) fn open_doubters(
    alloc: Global,
    world: &mut World,
    plan: &WorldPlan,
) -> Result<Vec<Doubter>, OutOfMemory>
    requires good { IsGoodPlan plan.now }
    requires network { HasNetwork plan.now world.old }
    ensures { IfOk result (λ doubters. AreOpened plan.now world.new doubters.items) }
{
    let mut doubters = Vec::new(alloc);
    for before in 0..plan.nodes {
        open_calls(alloc, world, before + 1)?;
        doubters.push(Doubter::open(alloc, address_of(before + 1))?)?;
    }
    Ok(doubters)
}

/// The doubter of a node makes its opening calls.
fn open_calls(alloc: Global, world: &mut World, node: u8) -> Result<(), OutOfMemory>
    requires { CanOpen world.old node }
    ensures { OnOk result (OpensCalls world.old world.new node) }
{
    questions_begin();
    open_call(
        world,
        node,
        0,
        Call::RegisterAsa {
            name: agent_name(alloc)?,
        },
    )?;
    open_call(
        world,
        node,
        DOUBTER,
        Call::RegisterObjective {
            name: objective_name(alloc)?,
            flags: Flags::NEG,
        },
    )?;
    open_call(
        world,
        node,
        DOUBTER,
        Call::ListenNegotiate {
            name: objective_name(alloc)?,
        },
    )
}

/// An opening call is made, behind which nothing is drained.
fn open_call(world: &mut World, node: u8, asa: u32, call: Call) -> Result<(), OutOfMemory>
    requires { CanCall world.old node asa call }
    ensures { OnOk result (MakesOpeningCall world.old world.new node asa call) }
{
    match world.step(Event::Api {
        node,
        asa,
        call,
        hold: true,
    }) {
        Ok(_) => Ok(()),
        Err(_) => Err(OutOfMemory),
    }
}
