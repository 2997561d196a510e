//! The links of a node and its neighbours on them.

ghost use Rattle.std.proofs.Common.{rules};

use crate::{Address, List, Locator, Plain};

/// Another node on a link: its address, and where it listens.
#[derive(Clone, Debug, Drop, PartialEq, Eq, Hash)]
pub struct Neighbour {
    pub address: Address,
    pub locator: Locator,
}

/// The neighbours on one link, numbered from 0.
pub type Neighbours = List<Neighbour>;

/// The links of a node, numbered from 0, each with its neighbours.
pub type LinkLists = List<Neighbours>;

impl Plain for Neighbour {
    ghost clones_are_same = { Prim.search rules };
}
