//! The plans of a configuration.

ghost use Rattle.std.specs.Prelude.{◌≡◌, map, IfOk};
ghost use Rattle.grasp_node_main.specs.Plans.{IsWantOf, AreWantsOf, beacon_plan_of, link_plan_of, IsPlanOf};

use crate::plan::{BeaconPlan, DaemonPlan};
use crate::want_plan::WantPlan;
use grasp_cbor::OutOfMemory;
use grasp_config::{BeaconConfig, NodeConfig, WantConfig};
use grasp_io::LinkPlan;
use grasp_model_node::NodePlan;
use grasp_types::{List, Plain};
use std::alloc::Global;

/// The plan of a node and its agents as they are configured. The node draws its session numbers from the seed.
///
/// A want whose lengths aren't in order or out of range is answered as want of memory; a text's configuration has none.
pub fn daemon_plan(
    alloc: Global,
    config: NodeConfig,
    seed: [u8; 32],
) -> Result<DaemonPlan, OutOfMemory>
    ensures { IfOk result (λ plan. IsPlanOf config seed plan) }
{
    let NodeConfig {
        address,
        listen,
        turns,
        wait,
        size,
        roots,
        links,
        wants,
        beacons,
        readers,
    } = config;
    let wanted = want_plans(alloc, wants.slice())?;
    let announced = beacon_plans(alloc, beacons.slice())?;
    Ok(DaemonPlan {
        node: NodePlan {
            address,
            locator: listen,
            links,
            seed,
            limit: size,
        },
        roots,
        wants: wanted,
        beacons: announced,
        readers,
        turns,
        wait,
    })
}

/// The plan of the links as they are configured.
pub fn link_plan(config: &NodeConfig) -> Result<LinkPlan, OutOfMemory>
    ensures { IfOk result (λ plan. plan ≡ link_plan_of config.now) }
{
    Ok(LinkPlan {
        listen: config.listen.copy()?,
        links: config.links.copy()?,
    })
}

/// The plans of wants.
fn want_plans(alloc: Global, wants: &[WantConfig]) -> Result<List<WantPlan>, OutOfMemory>
    ensures { IfOk result (λ plans. AreWantsOf wants.now plans) }
{
    let mut plans = List::new(alloc);
    for want in wants {
        plans.push(want_plan(want)?)?;
    }
    Ok(plans)
}

/// The plan of a want.
fn want_plan(want: &WantConfig) -> Result<WantPlan, OutOfMemory>
    ensures { IfOk result (λ plan. IsWantOf want.now plan) }
{
    match WantPlan::of(want.length, want.longest, want.peer.copy()?) {
        Some(plan) => Ok(plan),
        None => Err(OutOfMemory),
    }
}

/// The plans of beacons.
fn beacon_plans(alloc: Global, beacons: &[BeaconConfig]) -> Result<List<BeaconPlan>, OutOfMemory>
    ensures { IfOk result (λ plans. plans ≡ map beacon_plan_of beacons.now) }
{
    let mut plans = List::new(alloc);
    for beacon in beacons {
        plans.push(beacon_plan(beacon)?)?;
    }
    Ok(plans)
}

/// The plan of a beacon.
fn beacon_plan(beacon: &BeaconConfig) -> Result<BeaconPlan, OutOfMemory>
    ensures { IfOk result (λ plan. plan ≡ beacon_plan_of beacon.now) }
{
    Ok(BeaconPlan {
        name: beacon.name.copy()?,
        value: beacon.value.copy()?,
        ttl: beacon.ttl,
        loops: beacon.loops,
    })
}
