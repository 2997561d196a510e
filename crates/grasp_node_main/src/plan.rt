//! What a node and its agents are opened with.

use crate::want_plan::WantPlan;
use grasp_cbor::Chars;
use grasp_model_node::NodePlan;
use grasp_pool::RootPrefix;
use grasp_types::{List, Value};

/// What a beacon announces.
#[derive(Drop)]
pub struct BeaconPlan {
    /// Its objective.
    pub name: Chars,
    /// The value that it offers and floods.
    pub value: Value,
    /// The lifetime of its flood in milliseconds, where 0 never ends.
    pub ttl: u32,
    /// The loop count of its flood.
    pub loops: u8,
}

/// What a node and its agents are opened with, and how long it runs.
#[derive(Drop)]
pub struct DaemonPlan {
    /// The node's addresses, neighbours and seed.
    pub node: NodePlan,
    /// The prefixes that it begins with.
    pub roots: List<RootPrefix>,
    /// What the agent that manages prefixes is to want, one after the other.
    pub wants: List<WantPlan>,
    /// The beacons.
    pub beacons: List<BeaconPlan>,
    /// The objectives of the readers.
    pub readers: List<Chars>,
    /// How many turns the node makes.
    pub turns: u32,
    /// How many milliseconds an ask of the links waits at most.
    pub wait: u32,
}
