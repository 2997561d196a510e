//! How a node is opened, and what can be read of it.

ghost use Rattle.std.specs.Prelude.{◌≡◌, true, false, not, IfOk, IfErr};
ghost use Rattle.std.specs.List.{list_any};
ghost use Rattle.grasp_session.specs.Sessions.{state_reply, stream_reply};
ghost use Rattle.grasp_types.specs.Address.{is_dialable};
ghost use Rattle.grasp_model_node.specs.Waiting.{KeepsBytes};
ghost use Rattle.grasp_model_node.specs.Node.{NodeState, first_node};
ghost use Rattle.grasp_model_node.specs.Plan.{is_bad_link, is_bad_plan};
ghost use Rattle.grasp_core.specs.Stands.{NodeStands};

use crate::NodeCore;
use crate::draws::Draws;
use crate::kept::kept_in;
use crate::limit::MessageLimit;
use crate::queue::Queue;
use crate::streams::Streams;
use crate::ways::all_ways;
use grasp_asa::Registry;
use grasp_cbor::OutOfMemory;
use grasp_discovery::Discovery;
use grasp_flood::FloodCache;
use grasp_model_node::NodePlan;
use grasp_session::Table;
use grasp_types::{Handle, Neighbour, Neighbours};
use std::alloc::Global;
use thiserror::Error;

/// How many links a node has at most.
const MOST_LINKS: u64 = 16;

/// How many neighbours a node has at most on one link.
const MOST_NEIGHBOURS: usize = 16;

/// Why a node isn't opened.
#[derive(Clone, Copy, Debug, PartialEq, Eq, Error)]
pub enum PlanFault {
    /// More than 16 links, more than 16 neighbours on a link, a locator that isn't IPv6 or IPv4 with TCP, or a limit that
    /// isn't from 2048 to 65535.
    #[error("too many links or neighbours, a locator without TCP, or a limit out of range")]
    BadPlan,
    /// There is no memory for the node.
    #[error("out of memory")]
    OutOfMemory,
}

impl NodeCore {
    /// Opens a node to which nothing has happened. It is refused exactly where the plan is bad, but for want of memory.
    pub fn open(alloc: Global, plan: NodePlan) -> Result<NodeCore, PlanFault>
        ensures opened { IfOk result (λ core. NodeStands core (first_node plan)) }
        ensures good { IfOk result (λ core. is_bad_plan plan ≡ false) }
        ensures bad { IfErr result (λ fault. fault ≡ PlanFault.BadPlan → is_bad_plan plan ≡ true) }
        ensures memory { IfErr result (λ fault. fault ≡ PlanFault.OutOfMemory → is_bad_plan plan ≡ false) }
    {
        if is_bad_plan(&plan) {
            return Err(PlanFault::BadPlan);
        }
        match NodeCore::made(alloc, plan) {
            Ok(core) => Ok(core),
            Err(_) => Err(PlanFault::OutOfMemory),
        }
    }

    /// The parts of a node to which nothing has happened.
    fn made(alloc: Global, plan: NodePlan) -> Result<NodeCore, OutOfMemory>
        requires { is_bad_plan plan ≡ false }
        ensures { IfOk result (λ core. NodeStands core (first_node plan)) }
    {
        let Some(limit) = MessageLimit::of(plan.limit) else {
            unreachable!()
        };
        let ways = all_ways(alloc, &plan)?;
        let draws = Draws::new(plan.seed);
        Ok(NodeCore {
            alloc,
            plan,
            ways,
            reading: 0,
            registry: Registry::new(alloc)?,
            table: Table::new(alloc)?,
            discovery: Discovery::new(alloc)?,
            floods: FloodCache::new(alloc)?,
            streams: Streams::new(alloc, limit)?,
            queue: Queue::new(alloc)?,
            draws,
        })
    }

    /// The largest reading so far.
    pub fn now(&self) -> u64
        ensures { (n : NodeState) → NodeStands self.now n → result ≡ n.reading }
    {
        self.reading
    }

    /// The stream of a live session. `None` comes exactly where no live session has the handle.
    pub fn stream(&self, handle: Handle) -> Option<u64>
        ensures { (n : NodeState) → NodeStands self.now n → result ≡ stream_reply n.sessions handle }
    {
        self.table.stream(handle)
    }

    /// The session number of the live session on a stream, and whether it has an outcome. `None` comes exactly where
    /// there is no such session.
    pub fn state(&self, stream: u64) -> Option<(u32, bool)>
        ensures { (n : NodeState) → NodeStands self.now n → result ≡ state_reply n.sessions stream }
    {
        self.table.state(stream)
    }

    /// How many streams the node has dialled: the next one that it dials gets twice this number.
    pub fn dialled(&self) -> u64
        ensures { (n : NodeState) → NodeStands self.now n → result ≡ n.streams.dialled }
    {
        self.streams.dialled
    }

    /// How many bytes are kept of what came on open streams: of each those behind its last message, in all at most
    /// `u64::MAX`.
    pub fn kept(&self) -> u64
        ensures { (n : NodeState) → NodeStands self.now n → KeepsBytes n result }
    {
        kept_in(&self.streams.held)
    }
}

/// Whether a node can't be opened with this plan.
fn is_bad_plan(plan: &NodePlan) -> bool
    ensures { result ≡ is_bad_plan plan.now }
{
    if plan.links.len() > MOST_LINKS || has_bad_link(plan.links.slice()) {
        return true;
    }
    !plan.locator.is_dialable() || !MessageLimit::allows(plan.limit)
}

/// Whether a node can't have one of these links.
fn has_bad_link(links: &[Neighbours]) -> bool
    ensures { result ≡ list_any is_bad_link links.now }
{
    links.iter().any(|link| is_bad_link(link.slice()))
}

/// Whether a node can't have these neighbours on one link.
fn is_bad_link(neighbours: &[Neighbour]) -> bool
    ensures { result ≡ is_bad_link neighbours.now }
{
    neighbours.len() > MOST_NEIGHBOURS || has_undialable(neighbours)
}

/// Whether no stream can be opened to one of these neighbours.
fn has_undialable(neighbours: &[Neighbour]) -> bool
    ensures { result ≡ list_any (λ x. not (is_dialable x.locator)) neighbours.now }
{
    neighbours.iter().any(|n| !n.locator.is_dialable())
}
