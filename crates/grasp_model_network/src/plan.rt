//! What a network is made of.

ghost use Rattle.std.proofs.Common.{rules};

use grasp_pool::RootPrefix;
use grasp_types::{List, Plain};

/// A prefix that a node holds from the beginning.
#[derive(Clone, Copy, Debug, PartialEq, Eq)]
pub struct RootAt {
    /// The node, counted from 1.
    pub node: u8,
    pub root: RootPrefix,
}

/// The roots of all nodes.
pub type RootList = List<RootAt>;

/// The nodes on one link, in its line's order.
pub type Members = List<u8>;

/// The links, each with the nodes on it.
pub type MemberLists = List<Members>;

/// How many nodes there are, what they hold from the beginning, and how they are linked.
#[derive(Debug, Drop)]
pub struct WorldPlan {
    /// 1 to 64 nodes, numbered from 1.
    pub nodes: u8,
    /// The most bytes of a message, from 2048 to 8192.
    pub limit: u32,
    /// At most 1024 roots, of which no two overlap.
    pub roots: RootList,
    /// Each link has 2 to 17 different nodes, and a node is on at most 16 links.
    pub links: MemberLists,
}

impl Plain for RootAt {
    ghost clones_are_same = { Prim.search rules };
}
