//! The agents of a node that serves, before any call.

ghost use Rattle.std.specs.Prelude.{◌≡◌, ◌<◌, ◌++◌, [], ◌∷◌, length, IfOk, OnOk};
ghost use Rattle.grasp_crew.specs.Steward.{steward_of};
ghost use Rattle.grasp_crew.specs.declared.servant.Servant.TheVariants as servant;
ghost use Rattle.grasp_service.specs.Plans.{agent_or, crew_from, herald_from, heralds_from, listener_from, listeners_from};

use crate::plan::HeraldPlan;
use grasp_agent::PrefixAgent;
use grasp_cbor::{Chars, OutOfMemory};
use grasp_crew::{Herald, Listener, Pace, Servant, Steward};
use grasp_node_main::WantPlan;
use grasp_pool::RootPrefix;
use grasp_types::{List, Plain};
use std::alloc::Global;

/// Agents that have made no call. The one that manages prefixes is this one, or one with these roots, which are answered as want of
/// memory where `Pool::open` doesn't accept them.
pub(crate) fn open_crew(
    alloc: Global,
    agent: Option<PrefixAgent>,
    roots: &[RootPrefix],
    wants: List<WantPlan>,
    pace: Pace,
    heralds: &[HeraldPlan],
    readers: &[Chars],
) -> Result<Vec<Servant>, OutOfMemory>
    requires heralds { length heralds.now < 255 }
    requires readers { length readers.now < 255 }
    ensures { IfOk result (λ crew. crew.items ≡ crew_from (agent_or roots.now agent) wants pace heralds.now readers.now) }
{
    let steward = open_steward(alloc, agent, roots, wants, pace)?;
    let mut crew = Vec::new(alloc);
    match fill(alloc, &mut crew, steward, heralds, readers) {
        Ok(()) => Ok(crew),
        Err(OutOfMemory) => {
            drop(crew);
            Err(OutOfMemory)
        }
    }
}

/// The agent that manages prefixes: this one, or one with these roots.
fn open_steward(
    alloc: Global,
    agent: Option<PrefixAgent>,
    roots: &[RootPrefix],
    wants: List<WantPlan>,
    pace: Pace,
) -> Result<Steward, OutOfMemory>
    ensures { IfOk result (λ m. m ≡ steward_of (agent_or roots.now agent) wants pace) }
{
    match agent {
        Some(agent) => Steward::of(alloc, agent, wants, pace),
        None => Steward::open(alloc, roots, wants, pace),
    }
}

/// Adds all of them.
fn fill(
    alloc: Global,
    crew: &mut Vec<Servant>,
    steward: Steward,
    heralds: &[HeraldPlan],
    readers: &[Chars],
) -> Result<(), OutOfMemory>
    requires heralds { length heralds.now < 255 }
    requires readers { length readers.now < 255 }
    ensures { OnOk result (crew.new.items ≡ ((crew.old.items ++ servant.Steward steward ∷ []) ++ heralds_from 1 heralds.now) ++ listeners_from 1 readers.now) }
{
    crew.push(Servant::Steward(steward))?;
    add_heralds(alloc, crew, heralds)?;
    add_listeners(alloc, crew, readers)
}

/// Adds the beacons, numbered from 1.
fn add_heralds(
    alloc: Global,
    crew: &mut Vec<Servant>,
    heralds: &[HeraldPlan],
) -> Result<(), OutOfMemory>
    requires { length heralds.now < 255 }
    ensures { OnOk result (crew.new.items ≡ crew.old.items ++ heralds_from 1 heralds.now) }
{
    for (place, plan) in heralds.iter().enumerate() {
        add_herald(alloc, crew, place as u8 + 1, plan)?;
    }
    Ok(())
}

/// Adds a beacon of this number.
fn add_herald(
    alloc: Global,
    crew: &mut Vec<Servant>,
    number: u8,
    plan: &HeraldPlan,
) -> Result<(), OutOfMemory>
    ensures { OnOk result (crew.new.items ≡ crew.old.items ++ herald_from number plan.now ∷ []) }
{
    let name = plan.name.copy()?;
    let value = plan.value.copy()?;
    let opened = Herald::open(alloc, number, name, value, plan.ttl, plan.loops, plan.every);
    crew.push(Servant::Herald(opened))?;
    Ok(())
}

/// Adds the readers, numbered from 1.
fn add_listeners(
    alloc: Global,
    crew: &mut Vec<Servant>,
    readers: &[Chars],
) -> Result<(), OutOfMemory>
    requires { length readers.now < 255 }
    ensures { OnOk result (crew.new.items ≡ crew.old.items ++ listeners_from 1 readers.now) }
{
    for (place, name) in readers.iter().enumerate() {
        add_listener(alloc, crew, place as u8 + 1, name)?;
    }
    Ok(())
}

/// Adds a reader of this number.
fn add_listener(
    alloc: Global,
    crew: &mut Vec<Servant>,
    number: u8,
    name: &Chars,
) -> Result<(), OutOfMemory>
    ensures { OnOk result (crew.new.items ≡ crew.old.items ++ listener_from number name.now ∷ []) }
{
    let opened = Listener::open(alloc, number, name.copy()?)?;
    crew.push(Servant::Listener(opened))?;
    Ok(())
}
