//! Copies of plans.

ghost use Rattle.std.specs.Prelude.{◌≡◌, IfOk};

use crate::plan::{MemberLists, Members, WorldPlan};
use grasp_cbor::OutOfMemory;
use grasp_types::{List, Plain};
use std::alloc::Global;

impl WorldPlan {
    /// Another plan of the same value.
    pub fn copy(&self, alloc: Global) -> Result<WorldPlan, OutOfMemory>
        ensures { IfOk result (λ plan. plan ≡ self.now) }
    {
        Ok(WorldPlan {
            nodes: self.nodes,
            limit: self.limit,
            roots: self.roots.copy()?,
            links: copy_of_links(alloc, self.links.slice())?,
        })
    }
}

/// The same links.
fn copy_of_links(alloc: Global, links: &[Members]) -> Result<MemberLists, OutOfMemory>
    ensures { IfOk result (λ copy. copy ≡ links.now) }
{
    let mut copy = List::new(alloc);
    for line in links {
        copy.push(copy_of_line(alloc, line.slice())?)?;
    }
    Ok(copy)
}

/// The same nodes on a link.
fn copy_of_line(alloc: Global, line: &[u8]) -> Result<Members, OutOfMemory>
    ensures { IfOk result (λ copy. copy ≡ line.now) }
{
    let mut copy = List::new(alloc);
    for node in line {
        copy.push(*node)?;
    }
    Ok(copy)
}
