//! What a node that serves is opened with.

use grasp_agent::PrefixAgent;
use grasp_cbor::Chars;
use grasp_config::LogLevel;
use grasp_crew::Pace;
use grasp_model_node::NodePlan;
use grasp_node_main::WantPlan;
use grasp_pool::RootPrefix;
use grasp_types::{List, Value};

/// What a beacon announces, again and again.
#[derive(Drop)]
pub struct HeraldPlan {
    /// Its objective.
    pub name: Chars,
    /// The value that it offers and floods.
    pub value: Value,
    /// The lifetime of its floods in milliseconds, where 0 never ends.
    pub ttl: u32,
    /// The loop count of its floods.
    pub loops: u8,
    /// The longest pause between two floods, in milliseconds.
    pub every: u32,
}

/// What a node that serves is opened with, and its agents.
#[derive(Drop)]
pub struct ServicePlan {
    /// The node's addresses, neighbours and seed.
    pub node: NodePlan,
    /// The prefixes that it begins with.
    pub roots: List<RootPrefix>,
    /// The agent that it begins with in place of one with these roots, where it kept its pool.
    pub agent: Option<PrefixAgent>,
    /// What the agent that manages prefixes is to want.
    pub wants: List<WantPlan>,
    /// How fast a want is tried again.
    pub pace: Pace,
    /// The beacons, at most 254.
    pub heralds: List<HeraldPlan>,
    /// The objectives of the readers, at most 254.
    pub readers: List<Chars>,
    /// The milliseconds from tick to tick, at least 1.
    pub tick: u32,
    /// How much is logged.
    pub level: LogLevel,
}
