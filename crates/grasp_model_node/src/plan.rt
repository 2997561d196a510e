//! What a node is opened with.

ghost use Rattle.std.proofs.Common.{rules};

use grasp_types::{Address, LinkLists, Locator, Plain};

/// A node's addresses, its neighbours, the seed of its random numbers, and the most bytes that its messages may have.
#[derive(Clone, Debug, Drop)]
pub struct NodePlan {
    /// The address by which the node is known as an initiator.
    pub address: Address,
    /// Where the node listens for streams: an IPv6 or IPv4 locator with TCP.
    pub locator: Locator,
    /// Its links, at most 16, each with its neighbours, at most 16.
    pub links: LinkLists,
    /// The seed of the stream of which session numbers are drawn.
    pub seed: [u8; 32],
    /// The most bytes of a message, from 2048 to 65535.
    pub limit: u32,
}

impl Plain for NodePlan {
    ghost clones_are_same = { Prim.search rules };
}
