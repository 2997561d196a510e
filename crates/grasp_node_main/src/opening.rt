//! Opening a node with its agents.

ghost use Rattle.std.specs.Prelude.{◌≡◌, ◌<◌, ◌++◌, [], ◌∷◌, length, map, IfOk, OnOk};
ghost use Rattle.grasp_model_node.specs.Node.{first_node};
ghost use Rattle.grasp_model_node.specs.Plan.{is_bad_plan};
ghost use Rattle.grasp_node_main.specs.Crew.{crew_with, beacons_from, readers_from};
ghost use Rattle.grasp_shared.specs.Adding.{Adds};
ghost use Rattle.grasp_shared.specs.History.{Reaches};
ghost use Rattle.grasp_node_main.specs.Openings.{openings};
ghost use Rattle.grasp_node_main.specs.Seats.{first_seat, SeatsStand};

use crate::daemon::Daemon;
use crate::manager::Manager;
use crate::named_reader::NamedReader;
use crate::plan::BeaconPlan;
use crate::seated_agent::SeatedAgent;
use crate::want_plan::WantPlan;
use crate::worker::Worker;
use grasp_agent::Beacon;
use grasp_cbor::{Chars, OutOfMemory};
use grasp_core::NodeCore;
use grasp_model_node::NodePlan;
use grasp_pool::RootPrefix;
use grasp_types::{List, Plain};
use std::alloc::Global;

impl Daemon {
    /// A node with its agents. The one that manages prefixes has made its opening calls, before which nothing has happened; the
    /// others have made no call. Each list has fewer than 255 entries.
    ///
    /// A bad plan and roots that `Pool::open` doesn't accept are answered as want of memory, and so is an opening call that
    /// isn't answered as it is where there is memory.
    pub fn open(
        alloc: Global,
        node: NodePlan,
        roots: &[RootPrefix],
        wants: List<WantPlan>,
        beacons: &[BeaconPlan],
        readers: &[Chars],
    ) -> Result<Daemon, OutOfMemory>
        requires beacons { length beacons.now < 255 }
        requires readers { length readers.now < 255 }
        ensures core { IfOk result (λ d. Reaches (first_node node) openings d.core) }
        ensures seats { IfOk result (λ d. SeatsStand (crew_with roots.now wants beacons.now readers.now) [] 0 d.seats.items) }
    {
        let mut core = open_core(alloc, node)?;
        let seats = open_seats(alloc, &mut core, roots, wants, beacons, readers)?;
        Ok(Daemon { core, seats })
    }
}

/// A core to which nothing has happened. A bad plan is answered as want of memory.
pub fn open_core(alloc: Global, node: NodePlan) -> Result<NodeCore, OutOfMemory>
    ensures { IfOk result (λ core. Reaches (first_node node) [] core) }
{
    match NodeCore::open(alloc, node) {
        Ok(core) => Ok(core),
        Err(_) => Err(OutOfMemory),
    }
}

/// The agents, of which the one that manages prefixes has made its opening calls at this core, and the others no call.
fn open_seats(
    alloc: Global,
    core: &mut NodeCore,
    roots: &[RootPrefix],
    wants: List<WantPlan>,
    beacons: &[BeaconPlan],
    readers: &[Chars],
) -> Result<Vec<SeatedAgent>, OutOfMemory>
    requires beacons { length beacons.now < 255 }
    requires readers { length readers.now < 255 }
    ensures agents { IfOk result (λ seats. seats.items ≡ map first_seat (crew_with roots.now wants beacons.now readers.now)) }
    ensures calls { IfOk result (λ _. Adds core.old openings core.new) }
{
    let manager = Manager::open(alloc, core, roots, wants)?;
    let mut seats = Vec::new(alloc);
    seats.push(SeatedAgent::of(Worker::Manager(manager)))?;
    add_beacons(alloc, &mut seats, beacons)?;
    add_readers(alloc, &mut seats, readers)?;
    Ok(seats)
}

/// Adds the beacons, numbered from 1.
fn add_beacons(
    alloc: Global,
    seats: &mut Vec<SeatedAgent>,
    beacons: &[BeaconPlan],
) -> Result<(), OutOfMemory>
    requires { length beacons.now < 255 }
    ensures { OnOk result (seats.new.items ≡ seats.old.items ++ map first_seat (beacons_from 1 beacons.now)) }
{
    for (place, beacon) in beacons.iter().enumerate() {
        let number = place as u8 + 1;
        let name = beacon.name.copy()?;
        let value = beacon.value.copy()?;
        let opened = Beacon::open(alloc, number, name, value, beacon.ttl, beacon.loops);
        seats.push(SeatedAgent::of(Worker::Beacon(opened)))?;
    }
    Ok(())
}

/// Adds the readers, numbered from 1.
fn add_readers(
    alloc: Global,
    seats: &mut Vec<SeatedAgent>,
    readers: &[Chars],
) -> Result<(), OutOfMemory>
    requires { length readers.now < 255 }
    ensures { OnOk result (seats.new.items ≡ seats.old.items ++ map first_seat (readers_from 1 readers.now)) }
{
    for (place, name) in readers.iter().enumerate() {
        let number = place as u8 + 1;
        let opened = NamedReader::open(alloc, number, name.copy()?)?;
        seats.push(SeatedAgent::of(Worker::Reader(opened)))?;
    }
    Ok(())
}
