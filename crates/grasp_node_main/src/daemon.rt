//! A node with its agents.

ghost use Rattle.std.specs.Prelude.{◌≡◌, ◌<◌, ℕ, List, [], length};
ghost use Rattle.grasp_model_node.specs.Node.{NodeState};
ghost use Rattle.grasp_shared.specs.Handles.{IsRootOf};
ghost use Rattle.grasp_shared.specs.History.{Reaches};
ghost use Rattle.grasp_node_main.specs.Roots.{IsFresh};
ghost use Rattle.grasp_node_main.specs.Seats.{SeatsStand};
ghost use Rattle.grasp_node_main.specs.Steps.{RanShared, RunsSeats};
ghost use Rattle.grasp_node_main.specs.Tells.{links_told, told};
ghost use Rattle.grasp_node_main.specs.declared.worker.Worker.{Worker};

use crate::beside::run_beside;
use crate::exchange::drain_last;
use crate::gate::Gate;
use crate::passes::{join_all, split_all};
use crate::seated_agent::SeatedAgent;
use grasp_cbor::OutOfMemory;
use grasp_core::NodeCore;
use grasp_io::{Clock, Links};
use grasp_shared::{Root, Shared};
use std::alloc::Global;
use std::sync::Wait;
use std::thread::Threads;

/// A node and its agents, in the order of their callers' numbers.
#[derive(Drop)]
pub struct Daemon {
    pub(crate) core: NodeCore,
    pub(crate) seats: Vec<SeatedAgent>,
}

impl Daemon {
    /// So many turns of the network loop, each of which asks the links once and waits at most so many milliseconds; beside
    /// them as many turns of each agent; and then a last drain. Want of memory is answered before the first turn.
    pub fn run<R: Threads + Wait + Sync, L: Links, C: Clock, G: Gate + Sync>(
        self,
        rt: &R,
        alloc: Global,
        turns: u32,
        wait: u32,
        links: &mut L,
        clock: &mut C,
        gate: &G,
    ) -> Result<Daemon, OutOfMemory>
        requires { length self.seats.items < 4294967294 }
        ensures { (from : NodeState) (crew : List Worker) → Reaches from [] self.core → SeatsStand crew [] 0 self.seats.items
            → RunsSeats ((links.new ≡ links.old) × (clock.new ≡ clock.old)) from crew wait turns
            (told (C.readings clock.old) (links_told L.Links links.old)) result (told (C.readings clock.new) (links_told L.Links links.new)) }
    {
        let Daemon { core, mut seats } = self;
        match Shared::open(alloc, core) {
            Ok((shared, mut root)) => {
                run_shared(
                    rt, &shared, gate, turns, wait, links, clock, &mut root, &mut seats,
                );
                let core = shared.close(root);
                Ok(Daemon { core, seats })
            }
            Err(_) => Err(OutOfMemory),
        }
    }
}

/// Gives the agents passes, makes all turns, takes the passes back, and drains the node once more.
fn run_shared<R: Threads + Wait + Sync, L: Links, C: Clock, G: Gate + Sync>(
    rt: &R,
    shared: &Shared,
    gate: &G,
    turns: u32,
    wait: u32,
    links: &mut L,
    clock: &mut C,
    root: &mut Root,
    seats: &mut [SeatedAgent],
)
    requires own { IsRootOf shared.now root.old }
    requires fresh { IsFresh root.old }
    requires few { length seats.old < 4294967294 }
    ensures { RanShared shared.now wait turns (told (C.readings clock.old) (links_told L.Links links.old)) root.old seats.old
        (told (C.readings clock.new) (links_told L.Links links.new)) root.new seats.new }
{
    split_all(shared, root, seats);
    let now = run_beside(rt, shared, gate, turns, wait, links, clock, root, seats);
    join_all(shared, root, seats);
    drain_last(shared, now, root, links);
}
