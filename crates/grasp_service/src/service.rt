//! A node that serves.

ghost use Rattle.std.specs.Prelude.{◌≡◌, ◌<◌, [], length, IfOk, MatchResult};
ghost use Rattle.grasp_model_node.specs.Node.{first_node};
ghost use Rattle.grasp_shared.specs.History.{Reaches};
ghost use Rattle.grasp_service.specs.States.{first_state, state_at_first, state_of};
ghost use Rattle.grasp_service.specs.Openings.{BeginsService};
ghost use Rattle.grasp_service_visits.specs.Calling.{GoesSome};

use crate::begin::begin_all;
use crate::crew::open_crew;
use crate::plan::ServicePlan;
use grasp_cbor::OutOfMemory;
use grasp_config::LogLevel as Level;
use grasp_core::NodeCore;
use grasp_crew::{Seat, Servant};
use grasp_io::{Counters, LogLevel};
use grasp_node_main::open_core;
use grasp_service_visits::House;
use std::alloc::Global;

/// A node that serves: its core, its agents, and the seats of its visitors.
#[derive(Drop)]
pub struct Service {
    pub(crate) alloc: Global,
    pub(crate) core: NodeCore,
    pub(crate) house: House,
    pub(crate) seats: Vec<Seat>,
    pub(crate) tick: u32,
    pub(crate) ticked: u64,
    pub(crate) stirring: bool,
    pub(crate) reading: u64,
    pub(crate) wait: u32,
}

impl Service {
    /// A node to which nothing has happened, with agents that have made no call and no visitor. There are fewer than 255
    /// beacons, and as few readers.
    ///
    /// A bad plan and roots that `Pool::open` doesn't accept are answered as want of memory.
    pub fn open(alloc: Global, plan: ServicePlan) -> Result<Service, OutOfMemory>
        requires heralds { length plan.heralds < 255 }
        requires readers { length plan.readers < 255 }
        ensures core { IfOk result (λ s. Reaches (first_node plan.node) [] s.core) }
        ensures state { IfOk result (λ s. state_of s ≡ first_state plan) }
    {
        let ServicePlan {
            node,
            roots,
            agent,
            wants,
            pace,
            heralds,
            readers,
            tick,
            level,
        } = plan;
        let core = open_core(alloc, node)?;
        let opened = open_crew(
            alloc,
            agent,
            roots.slice(),
            wants,
            pace,
            heralds.slice(),
            readers.slice(),
        );
        match opened {
            Ok(crew) => Ok(first_service(alloc, core, crew, level, tick)),
            Err(OutOfMemory) => {
                drop(core);
                Err(OutOfMemory)
            }
        }
    }

    /// Makes the opening calls of the agents, before any socket is open. A call that isn't answered as an opening is answered as
    /// want of memory; the history has it, and nothing else is claimed.
    #[tactic(auto, using(crate::proofs::Openings::begins_service))]
    pub fn begin(&mut self) -> Result<(), OutOfMemory>
        ensures { MatchResult result (λ _. BeginsService self.old self.new) (λ _. GoesSome self.old.core self.new.core) }
    {
        begin_all(&mut self.core, &mut self.house.crew)
    }

    /// How much is logged.
    pub fn level(&self) -> LogLevel {
        match self.house.level {
            Level::Quiet => LogLevel::Quiet,
            Level::Events => LogLevel::Events,
            Level::Traffic => LogLevel::Traffic,
        }
    }
}

/// A node to which nothing has happened, with this core and these agents.
fn first_service(
    alloc: Global,
    core: NodeCore,
    crew: Vec<Servant>,
    level: Level,
    tick: u32,
) -> Service
    ensures core { result.core ≡ core }
    ensures state { state_of result ≡ state_at_first crew.items level tick }
{
    let house = House {
        crew,
        level,
        stopping: false,
        counters: Counters::new(),
    };
    Service {
        alloc,
        core,
        house,
        seats: Vec::new(alloc),
        tick,
        ticked: 0,
        stirring: true,
        reading: 0,
        wait: 0,
    }
}
