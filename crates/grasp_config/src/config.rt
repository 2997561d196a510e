//! What a node is configured with.

use grasp_cbor::Chars;
use grasp_pool::RootPrefix;
use grasp_types::{Address, LinkLists, List, Locator, Value};

/// What a node is, whom it knows, and what its agents do.
#[derive(Debug, Drop)]
pub struct NodeConfig {
    /// The address by which the node is known as an initiator.
    pub address: Address,
    /// Where it listens for streams: an IPv4 or IPv6 locator with TCP.
    pub listen: Locator,
    /// How many turns it makes, 1 to 1000000.
    pub turns: u32,
    /// For how many milliseconds it waits for what comes in each turn, 0 to 1000.
    pub wait: u32,
    /// The most bytes of a message, 2048 to 65535.
    pub size: u32,
    /// The prefixes that its pool is opened with, at most 1,024, no two of which overlap.
    pub roots: List<RootPrefix>,
    /// Its links, at most 16, each with its neighbours, at most 16.
    pub links: LinkLists,
    /// The prefixes that it asks for, one after the other.
    pub wants: List<WantConfig>,
    /// What it announces. There are at most 7 beacons and readers together.
    pub beacons: List<BeaconConfig>,
    /// The names of the objectives that it reads.
    pub readers: List<Chars>,
}

/// A prefix that a node asks of a peer (RFC 8992).
#[derive(Debug, Drop)]
pub struct WantConfig {
    /// The length in bits that it begins with, 1 to 128.
    pub length: u8,
    /// The longest length that it takes, from `length` to 128.
    pub longest: u8,
    /// The peer that it asks: an IPv4 or IPv6 locator with TCP.
    pub peer: Locator,
}

/// A value that a node announces.
#[derive(Debug, Drop)]
pub struct BeaconConfig {
    /// The name of its objective.
    pub name: Chars,
    /// The value.
    pub value: Value,
    /// The lifetime in milliseconds with which it is flooded, where 0 never ends.
    pub ttl: u32,
    /// The loop count with which it is flooded.
    pub loops: u8,
}
