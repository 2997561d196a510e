//! A network of the plan's nodes, and what was sent in it.

ghost use Rattle.std.specs.Prelude.{◌≡◌, ◌↔◌, ◌-◌, IsTrue, Some, length, slice_get};
ghost use Rattle.grasp_simulator.specs.Contract.{WorldOpened};
ghost use Rattle.grasp_model_network.specs.Plans.{IsGoodPlan, IsNode};
ghost use Rattle.grasp_model_network.specs.Setting.{numbered};
ghost use Rattle.grasp_simulator.specs.WorldStands.{WorldStands, HasNode, owner_in, LendsCore, LendsAgent, TellsPlace};

use crate::marks::Mark;
use crate::notes::Notes;
use crate::opening::{first_lives, open_seats};
use crate::parcel::Parcel;
use crate::places::Places;
use crate::seat::Seat;
use crate::streams::Streams;
use grasp_agent::PrefixAgent;
use grasp_cbor::OutOfMemory;
use grasp_core::NodeCore;
use grasp_model_network::{Members, WorldPlan, WorldStop};
use grasp_types::List;
use std::alloc::Global;

/// Nodes, each with an agent that manages prefixes, and what they have sent.
#[derive(Drop)]
pub struct World {
    pub(crate) plan: WorldPlan,
    /// The nodes, from 1 on, in their present lives.
    pub(crate) seats: Vec<Seat>,
    /// Whose life each is, from 1 on.
    pub(crate) lives: Members,
    pub(crate) streams: Streams,
    pub(crate) marks: List<Mark>,
    pub(crate) notes: Notes,
    pub(crate) parcels: List<Parcel>,
    pub(crate) places: Places,
    pub(crate) sent: u64,
    pub(crate) stopped: Option<WorldStop>,
}

impl World {
    /// A network of the plan's nodes, in which nothing has happened.
    pub fn open(alloc: Global, plan: WorldPlan) -> Result<World, OutOfMemory>
        requires { IsGoodPlan plan }
        ensures { WorldOpened WorldStands plan result }
    {
        let seats = open_seats(alloc, &plan)?;
        let lives = first_lives(alloc, plan.nodes)?;
        Ok(World {
            plan,
            seats,
            lives,
            streams: Streams::new(alloc),
            marks: List::new(alloc),
            notes: Notes::new(alloc),
            parcels: List::new(alloc),
            places: Places::new(alloc),
            sent: 0,
            stopped: None,
        })
    }

    /// The node of this number, in its present life.
    pub fn node(&self, node: u8) -> &NodeCore
        requires { HasNode self.now node }
        ensures { LendsCore self.now node result.now }
    {
        &self.seat(node).core
    }

    /// The agent of the node of this number, in its present life.
    pub fn agent(&self, node: u8) -> &PrefixAgent
        requires { HasNode self.now node }
        ensures { LendsAgent self.now node result.now }
    {
        &self.seat(node).agent
    }

    /// The place of the handle with this number that the node gave in its present life, from 0 to 63, and 0 where it gave none.
    pub fn place(&self, node: u8, number: u64) -> u32
        requires { HasNode self.now node }
        ensures { TellsPlace self.now node number result }
    {
        self.places.place(self.seat(node).life, number)
    }

    /// Whose life it is.
    pub(crate) fn member(&self, life: u64) -> Option<u8>
        ensures { result ≡ numbered self.now.lives life }
    {
        if life == 0 {
            return None;
        }
        self.lives.at(life - 1).copied()
    }

    /// The node whose life it is.
    pub(crate) fn owner(&self, life: u64) -> Option<u8>
        ensures { result ≡ owner_in (length self.now.seats.items) (numbered self.now.lives life) }
    {
        let node = self.member(life)?;
        if self.has(node) { Some(node) } else { None }
    }

    /// Whether there is a node of this number.
    pub(crate) fn has(&self, node: u8) -> bool
        ensures { IsTrue result ↔ IsNode (length self.now.seats.items) node }
    {
        1 <= node && usize::from(node) <= self.seats.len()
    }

    /// The node of this number with its agent.
    pub(crate) fn seat(&self, node: u8) -> &Seat
        requires { HasNode self.now node }
        ensures { Some result.now ≡ slice_get self.now.seats.items (node - 1) }
    {
        &self.seats[usize::from(node - 1)]
    }
}
