//! What visitors may look into and give orders to.

use grasp_config::LogLevel;
use grasp_crew::Servant;
use grasp_io::Counters;

/// The agents of a node that serves, and what else visitors may look into and give orders to.
#[derive(Drop)]
pub struct House {
    /// The agents: the one that manages prefixes first, then the beacons, then the readers.
    pub crew: Vec<Servant>,
    /// How much is logged.
    pub level: LogLevel,
    /// Whether the node is to end.
    pub stopping: bool,
    /// What the links counted.
    pub counters: Counters,
}
