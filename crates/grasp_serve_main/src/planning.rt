//! The plans of a configuration.

ghost use Rattle.std.specs.Prelude.{◌≡◌, None, map, IfOk};
ghost use Rattle.grasp_serve_main.specs.Plans.{desk_plan_of, herald_plan_of, salt_of, IsServicePlanOf};

use grasp_agent::PrefixAgent;
use grasp_cbor::{Chars, OutOfMemory};
use grasp_config::{ServeConfig, ServeTable, flood_pause};
use grasp_crew::Pace;
use grasp_desk::DeskPlan;
use grasp_node_main::{BeaconPlan, daemon_plan};
use grasp_service::{HeraldPlan, ServicePlan};
use grasp_types::{Address, List, Plain};
use std::alloc::Global;

/// Where visitors come in, as it is configured.
pub(crate) fn desk_plan(serve: &ServeTable) -> Result<DeskPlan, OutOfMemory>
    ensures { IfOk result (λ plan. plan ≡ desk_plan_of serve.now) }
{
    Ok(DeskPlan {
        control: serve.control.copy()?,
        guests: copy_path(&serve.guests)?,
        mode: serve.mode,
        visitors: serve.visitors,
    })
}

fn copy_path(path: &Option<Chars>) -> Result<Option<Chars>, OutOfMemory>
    ensures { IfOk result (λ copied. copied ≡ path.now) }
{
    match path {
        Some(path) => Ok(Some(path.copy()?)),
        None => Ok(None),
    }
}

/// The plan of a node that serves, as it is configured. The node tells others the locator of the table `serve`. It begins with this
/// agent, or with its roots, where its pool is forgotten.
#[tactic(auto, using(crate::proofs::Planned::service_planned))]
pub(crate) fn service_plan(
    alloc: Global,
    config: ServeConfig,
    agent: Option<PrefixAgent>,
    seed: [u8; 32],
) -> Result<ServicePlan, OutOfMemory>
    requires { config.serve.store ≡ None → agent ≡ None }
    ensures planned { IfOk result (λ plan. IsServicePlanOf config seed plan) }
    ensures agent { IfOk result (λ plan. plan.agent ≡ agent) }
{
    let ServeConfig { node, serve } = config;
    let pace = Pace {
        first: serve.retry,
        most: serve.retry_most,
        salt: salt_of(node.address),
    };
    let plan = daemon_plan(alloc, node, seed)?;
    let heralds = herald_plans(alloc, plan.beacons.slice(), serve.every)?;
    let mut node = plan.node;
    node.locator = serve.locator;
    Ok(ServicePlan {
        node,
        roots: plan.roots,
        agent,
        wants: plan.wants,
        pace,
        heralds,
        readers: plan.readers,
        tick: serve.tick,
        level: serve.log,
    })
}

/// The beacons, each with its longest pause.
fn herald_plans(
    alloc: Global,
    beacons: &[BeaconPlan],
    every: Option<u32>,
) -> Result<List<HeraldPlan>, OutOfMemory>
    ensures { IfOk result (λ plans. plans ≡ map (herald_plan_of every) beacons.now) }
{
    let mut plans = List::new(alloc);
    for beacon in beacons {
        plans.push(herald_plan(beacon, every)?)?;
    }
    Ok(plans)
}

/// A beacon with its longest pause.
fn herald_plan(beacon: &BeaconPlan, every: Option<u32>) -> Result<HeraldPlan, OutOfMemory>
    ensures { IfOk result (λ plan. plan ≡ herald_plan_of every beacon.now) }
{
    Ok(HeraldPlan {
        name: beacon.name.copy()?,
        value: beacon.value.copy()?,
        ttl: beacon.ttl,
        loops: beacon.loops,
        every: flood_pause(every, beacon.ttl),
    })
}

/// The last byte of an address, by which nodes that begin together don't ask together.
fn salt_of(address: Address) -> u8
    ensures { result ≡ salt_of address }
{
    match address {
        Address::V4(number) => (number % 256) as u8,
        Address::V6(number) => (number % 256) as u8,
    }
}
