//! Running a node from its plan to its end.

ghost use Rattle.std.specs.Prelude.{◌≡◌, ◌<◌, false, length, IfOk};
ghost use Rattle.grasp_node_main.specs.Runs.{RunsNode, AllGoing};
ghost use Rattle.grasp_node_main.specs.Tells.{links_told, told};

use crate::daemon::Daemon;
use crate::gate::Gate;
use crate::plan::DaemonPlan;
use grasp_cbor::OutOfMemory;
use grasp_io::{Clock, Links};
use std::alloc::Global;
use std::sync::Wait;
use std::thread::Threads;

/// Opens the node of this plan and its agents, makes the opening calls of the one that manages prefixes, and then makes the
/// plan's turns over links that are open.
///
/// Want of memory is answered before the first turn, where there is none for the node or for an opening call; and after the
/// last one, where an agent had to stop.
pub fn run_node<R: Threads + Wait + Sync, L: Links, C: Clock, G: Gate + Sync>(
    rt: &R,
    alloc: Global,
    plan: DaemonPlan,
    links: &mut L,
    clock: &mut C,
    gate: &G,
) -> Result<Daemon, OutOfMemory>
    requires beacons { length plan.beacons < 255 }
    requires readers { length plan.readers < 255 }
    ensures { RunsNode ((links.new ≡ links.old) × (clock.new ≡ clock.old)) plan (told (C.readings clock.old) (links_told L.Links links.old)) result
        (told (C.readings clock.new) (links_told L.Links links.new)) }
{
    let DaemonPlan {
        node,
        roots,
        wants,
        beacons,
        readers,
        turns,
        wait,
    } = plan;
    let held = roots.slice();
    let announced = beacons.slice();
    let read = readers.slice();
    match Daemon::open(alloc, node, held, wants, announced, read) {
        Ok(daemon) => match daemon.run(rt, alloc, turns, wait, links, clock, gate) {
            Ok(daemon) => unless_stopped(daemon),
            Err(OutOfMemory) => Err(OutOfMemory),
        },
        Err(OutOfMemory) => Err(OutOfMemory),
    }
}

/// The node, unless one of its agents has stopped.
fn unless_stopped(daemon: Daemon) -> Result<Daemon, OutOfMemory>
    ensures same { IfOk result (λ d. d ≡ daemon) }
    ensures going { IfOk result (λ d. AllGoing daemon.seats.items) }
{
    if has_stopped(&daemon) {
        return Err(OutOfMemory);
    }
    Ok(daemon)
}

/// Whether one of the agents has stopped.
fn has_stopped(daemon: &Daemon) -> bool
    ensures { result ≡ false → AllGoing daemon.now.seats.items }
{
    for seat in &daemon.seats {
        if seat.stopped {
            return true;
        }
    }
    false
}
