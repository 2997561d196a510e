//! The core of a node.

use crate::draws::Draws;
use crate::queue::Queue;
use crate::streams::Streams;
use grasp_asa::Registry;
use grasp_discovery::Discovery;
use grasp_flood::FloodCache;
use grasp_model_node::{NodePlan, Way};
use grasp_session::Table;
use std::alloc::Global;

/// A node: all that its answers depend on.
#[derive(Drop)]
pub struct NodeCore {
    pub(crate) alloc: Global,
    pub(crate) plan: NodePlan,
    pub(crate) ways: Vec<Way>,
    pub(crate) reading: u64,
    pub(crate) registry: Registry,
    pub(crate) table: Table,
    pub(crate) discovery: Discovery,
    pub(crate) floods: FloodCache,
    pub(crate) streams: Streams,
    pub(crate) queue: Queue,
    pub(crate) draws: Draws,
}
