//! A network whose nodes keep their pools on disks in memory, and crash.

ghost use Rattle.std.specs.Prelude.{◌≡◌, ◌+◌, ◌<◌, ◌^◌, IfOk};
ghost use Rattle.grasp_model_network.specs.Plans.{IsGoodPlan};
ghost use Rattle.grasp_kept.specs.Contract.{KeptOpened};
ghost use Rattle.grasp_kept.specs.Disks.{AreEmpty, AreOpened};
ghost use Rattle.grasp_kept.specs.Stands.{Crashes, CanCrash, CanHappen, Happens, IsKeptAsked, KeptCanRun, KeptRuns, KeptWorldStands};
ghost use Rattle.grasp_kept.specs.Stands.{KeptWorldStepped, network_in, steps_of};

use crate::around::{call, tell};
use crate::beginning::begin_anew;
use crate::crash::call_until;
use crate::opening::open_disk;
use crate::roots::roots_of;
use grasp_cbor::OutOfMemory;
use grasp_disk::{DiskList, Left, MemDisk};
use grasp_model_kept::{KeptEvent, KeptReport};
use grasp_model_network::{Event, Report, WorldPlan, WorldStop};
use grasp_pool::PoolImage;
use grasp_simulator::World;
use grasp_store::Keeper;
use std::alloc::Global;

/// A network of nodes, each with a disk in memory on which a keeper has the image of its pool.
#[derive(Drop)]
pub struct KeptWorld {
    pub(crate) plan: WorldPlan,
    pub(crate) world: World,
    /// One for each node, in order.
    pub(crate) keepers: Vec<Keeper<MemDisk>>,
    pub(crate) steps: u64,
    pub(crate) stopped: Option<WorldStop>,
}

impl KeptWorld {
    /// A network of the plan's nodes, in which nothing has happened, with a disk for each on which nothing was written.
    pub fn open(alloc: Global, plan: WorldPlan, disks: DiskList) -> Result<KeptWorld, OutOfMemory>
        requires good { IsGoodPlan plan }
        requires disks { AreEmpty plan.nodes disks }
        ensures opened { KeptOpened KeptWorldStands plan result }
        ensures none_made { IfOk result (λ world. steps_of world ≡ 0) }
    {
        let keepers = open_disks(alloc, &plan, disks)?;
        let world = World::open(alloc, plan.copy(alloc)?)?;
        Ok(KeptWorld {
            plan,
            world,
            keepers,
            steps: 0,
            stopped: None,
        })
    }

    /// The network itself.
    pub fn world(&self) -> &World
        ensures { result.now ≡ network_in self.now }
    {
        &self.world
    }

    /// How many steps were made.
    pub fn steps(&self) -> u64
        ensures { result ≡ steps_of self.now }
    {
        self.steps
    }

    /// Something happens, or a node crashes and begins anew. A plain event is to be one that the network may be asked for, and the
    /// node of a crash is to be there. After an `Err` every later event is answered by it again.
    pub fn step(&mut self, event: KeptEvent) -> Result<KeptReport, WorldStop>
        requires asked { IsKeptAsked self.old event }
        requires few { steps_of self.old < 2 ^ 32 }
        ensures stepped { KeptWorldStepped self.old self.new event result }
        ensures counts { steps_of self.new ≡ steps_of self.old + 1 }
    {
        self.steps += 1;
        if let Some(stop) = self.stopped {
            return Err(stop);
        }
        match self.run(event) {
            Ok(report) => Ok(report),
            Err(stop) => {
                self.stopped = Some(stop);
                Err(stop)
            }
        }
    }

    /// An event, whatever it comes to. After an `Err` nothing is said of the network.
    fn run(&mut self, event: KeptEvent) -> Result<KeptReport, WorldStop>
        requires { KeptCanRun self.old event }
        ensures runs { KeptRuns self.old self.new event result }
        ensures same_steps { self.new.steps ≡ self.old.steps }
        ensures same_stop { self.new.stopped ≡ self.old.stopped }
    {
        match event {
            KeptEvent::Plain(event) => match self.happen(event) {
                Ok(report) => Ok(KeptReport::Plain(report)),
                Err(stop) => Err(stop),
            },
            KeptEvent::Crash { node, calls, left } => match self.crash(node, calls, left) {
                Ok(image) => Ok(KeptReport::Restarted(image)),
                Err(stop) => Err(stop),
            },
        }
    }

    /// An event that is no crash.
    fn happen(&mut self, event: Event) -> Result<Report, WorldStop>
        requires { CanHappen self.old event }
        ensures happens { Happens self.old self.new event result }
        ensures same_steps { self.new.steps ≡ self.old.steps }
        ensures same_stop { self.new.stopped ≡ self.old.stopped }
    {
        match event {
            Event::Agent { node, hold } => call(
                &mut self.world,
                &mut self.keepers[usize::from(node - 1)],
                node,
                hold,
            ),
            Event::Want {
                node,
                length,
                longest,
                peer,
            } => tell(
                &mut self.world,
                &mut self.keepers[usize::from(node - 1)],
                node,
                Event::Want {
                    node,
                    length,
                    longest,
                    peer,
                },
            ),
            Event::Return { node, prefix, peer } => tell(
                &mut self.world,
                &mut self.keepers[usize::from(node - 1)],
                node,
                Event::Return { node, prefix, peer },
            ),
            event => self.world.step(event),
        }
    }

    /// A node crashes, and begins anew with this image.
    fn crash(&mut self, node: u8, calls: u64, left: Left) -> Result<PoolImage, WorldStop>
        requires { CanCrash self.old node }
        ensures crashes { Crashes self.old self.new node calls left result }
        ensures same_steps { self.new.steps ≡ self.old.steps }
        ensures same_stop { self.new.stopped ≡ self.old.stopped }
    {
        let alloc = *self.keepers.allocator();
        let at = usize::from(node - 1);
        let Ok(roots) = roots_of(alloc, &self.plan, node) else {
            return Err(WorldStop::OutOfMemory);
        };
        match call_until(&mut self.world, &mut self.keepers[at], node, calls) {
            Ok(()) => {}
            Err(stop) => return Err(stop),
        }
        let keeper = self.keepers.remove(at);
        match begin_anew(alloc, &mut self.world, keeper, node, left, &roots) {
            Ok((keeper, image)) => match self.keepers.insert(at, keeper) {
                Ok(()) => Ok(image),
                Err(_) => Err(WorldStop::OutOfMemory),
            },
            Err(stop) => Err(stop),
        }
    }
}

/// A keeper for each node of the plan, with a disk on which nothing was written. Which disk it gets makes no difference.
fn open_disks(
    alloc: Global,
    plan: &WorldPlan,
    disks: DiskList,
) -> Result<Vec<Keeper<MemDisk>>, OutOfMemory>
    requires good { IsGoodPlan plan.now }
    requires disks { AreEmpty plan.now.nodes disks }
    ensures { IfOk result (λ keepers. AreOpened plan.now keepers.items) }
{
    let mut disks = disks.into_vec();
    let mut keepers = Vec::new(alloc);
    for before in 0..plan.nodes {
        let Some(disk) = disks.pop() else {
            unreachable!()
        };
        let roots = roots_of(alloc, plan, before + 1)?;
        keepers.push(open_disk(alloc, disk, &roots)?)?;
    }
    Ok(keepers)
}
