//! A network whose nodes have doubters.

ghost use Rattle.std.specs.Prelude.{◌≡◌};
ghost use Rattle.grasp_model_network.specs.Plans.{IsGoodPlan};
ghost use Rattle.grasp_doubts.specs.Contract.{DoubtsOpened};
ghost use Rattle.grasp_doubts.specs.Stands.{CanHappen, DoubtCanRun, DoubtRuns, DoubtWorldStands, DoubtWorldStepped, Happens, IsDoubtAsked, network_in};

use crate::asking::ask;
use crate::calling::call_doubter;
use crate::opening::open_doubters;
use crate::seeing::call_agent;
use grasp_cbor::OutOfMemory;
use grasp_doubter::Doubter;
use grasp_model_doubts::{DoubtEvent, DoubtReport};
use grasp_model_network::{Event, Report, WorldPlan, WorldStop};
use grasp_simulator::World;
use std::alloc::Global;

/// A network of nodes, each with a doubter, which asks other nodes whether they ever accepted a prefix, and answers such questions.
#[derive(Drop)]
pub struct DoubtWorld {
    pub(crate) world: World,
    /// One for each node, in order.
    pub(crate) doubters: Vec<Doubter>,
    pub(crate) stopped: Option<WorldStop>,
}

impl DoubtWorld {
    /// A network of the plan's nodes, each with a doubter that is registered as agent 2 and listens. Nothing else has happened.
    pub fn open(alloc: Global, plan: WorldPlan) -> Result<DoubtWorld, OutOfMemory>
        requires { IsGoodPlan plan }
        ensures { DoubtsOpened DoubtWorldStands plan result }
    {
        let mut world = World::open(alloc, plan.copy(alloc)?)?;
        let doubters = open_doubters(alloc, &mut world, &plan)?;
        Ok(DoubtWorld {
            world,
            doubters,
            stopped: None,
        })
    }

    /// The network itself.
    pub fn world(&self) -> &World
        ensures { result.now ≡ network_in self.now }
    {
        &self.world
    }

    /// Something happens, a node's doubter makes its next call, or it is asked a question. A plain event is to be one that the network
    /// may be asked for, and no call as agent 1 or 2; the node and the peer of another one are to be there. After an `Err` every later
    /// event is answered by it again.
    pub fn step(&mut self, event: DoubtEvent) -> Result<DoubtReport, WorldStop>
        requires { IsDoubtAsked self.old event }
        ensures { DoubtWorldStepped self.old self.new event result }
    {
        if let Some(stop) = self.stopped {
            return Err(stop);
        }
        match self.run(event) {
            Ok(report) => Ok(report),
            Err(stop) => {
                self.stopped = Some(stop);
                Err(stop)
            }
        }
    }

    /// An event, whatever it comes to. After an `Err` nothing is said of the network.
    fn run(&mut self, event: DoubtEvent) -> Result<DoubtReport, WorldStop>
        requires { DoubtCanRun self.old event }
        ensures runs { DoubtRuns self.old self.new event result }
        ensures same_stop { self.new.stopped ≡ self.old.stopped }
    {
        match event {
            DoubtEvent::Plain(event) => match self.happen(event) {
                Ok(report) => Ok(DoubtReport::Plain(report)),
                Err(stop) => Err(stop),
            },
            DoubtEvent::Doubter { node } => match call_doubter(
                &mut self.world,
                &mut self.doubters[usize::from(node - 1)],
                node,
            ) {
                Ok(report) => Ok(DoubtReport::Plain(report)),
                Err(stop) => Err(stop),
            },
            DoubtEvent::Ask { node, prefix, peer } => Ok(DoubtReport::Ask(ask(
                &self.world,
                &mut self.doubters[usize::from(node - 1)],
                node,
                prefix,
                peer,
            ))),
        }
    }

    /// An event that is neither a doubter's call nor a question. The doubter of a node is told of the calls of the node's agent.
    fn happen(&mut self, event: Event) -> Result<Report, WorldStop>
        requires { CanHappen self.old event }
        ensures happens { Happens self.old self.new event result }
        ensures same_stop { self.new.stopped ≡ self.old.stopped }
    {
        match event {
            Event::Agent { node, hold } => call_agent(
                &mut self.world,
                &mut self.doubters[usize::from(node - 1)],
                node,
                hold,
            ),
            event => self.world.step(event),
        }
    }
}
