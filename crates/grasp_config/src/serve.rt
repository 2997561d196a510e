//! What a node that serves is configured with.

use crate::config::NodeConfig;
use crate::level::LogLevel;
use grasp_cbor::Chars;
use grasp_types::{Address, List, Locator};

/// A node that serves: what every node is configured with, and how it serves.
#[derive(Debug, Drop)]
pub struct ServeConfig {
    /// The node's own part. Its `turns` are 1 where the text has none, and say nothing.
    pub node: NodeConfig,
    /// The table `serve`.
    pub serve: ServeTable,
}

/// How a node serves.
#[derive(Debug, Drop)]
pub struct ServeTable {
    /// The path of the socket at which the node is controlled, 1 to 107 bytes.
    pub control: Chars,
    /// The path of the socket for guests, 1 to 107 bytes, where there is one.
    pub guests: Option<Chars>,
    /// Who may open both sockets: the nine bits of a file's mode, 0 to 0o777.
    pub mode: u16,
    /// The path of the store, 1 to 4095 bytes, or none where the pool is forgotten at the end.
    pub store: Option<Chars>,
    /// The locator that others are told. Its address isn't all zeros, and its port isn't 0.
    pub locator: Locator,
    /// Who may open streams. Where there is none, everybody may.
    pub allow: List<AllowedRange>,
    /// The most open streams of one address, 1 to 64.
    pub streams: u8,
    /// For how many milliseconds a stream may give nothing, 1000 to 3600000.
    pub silence: u32,
    /// After how many milliseconds a want that came to nothing is tried again, 100 to 3600000.
    pub retry: u32,
    /// The most of these milliseconds, from `retry` to 86400000.
    pub retry_most: u32,
    /// The milliseconds between two floods of a beacon, 1000 to 86400000, where they are the same for all. `flood_pause`
    /// has them for each.
    pub every: Option<u32>,
    /// The milliseconds from tick to tick, 100 to 1000.
    pub tick: u32,
    /// The most visitors at once, 1 to 64.
    pub visitors: u8,
    /// How much is logged.
    pub log: LogLevel,
    /// The name that stands in the log, 1 to 32 printable characters of ASCII, where there is one.
    pub name: Option<Chars>,
}

/// Addresses that may open streams: those whose first `length` bits are those of `address`.
#[derive(Clone, Copy, Debug, PartialEq, Eq)]
pub struct AllowedRange {
    pub address: Address,
    /// At most 32 for IPv4, and at most 128 for IPv6.
    pub length: u8,
}
