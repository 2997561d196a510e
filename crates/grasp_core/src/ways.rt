//! The ways to a node's neighbours.

ghost use Rattle.std.specs.Prelude.{◌≡◌, ◌≤◌, ◌==◌, ◌++◌, not, map, filter, false, length, IfOk, OnOk};
ghost use Rattle.grasp_types.specs.declared.traffic.Output.TheVariants as output;
ghost use Rattle.grasp_model_node.specs.Plan.{is_bad_plan};
ghost use Rattle.grasp_model_node.specs.Queue.{all_ways, ways_on};

use grasp_cbor::{Octets, OutOfMemory};
use grasp_model_node::{NodePlan, Way};
use grasp_types::{Neighbour, Output, Plain};
use std::alloc::Global;

/// The ways to every neighbour of every link, in order.
pub(crate) fn all_ways(alloc: Global, plan: &NodePlan) -> Result<Vec<Way>, OutOfMemory>
    requires { is_bad_plan plan.now ≡ false }
    ensures { IfOk result (λ ways. ways.items ≡ all_ways plan.now.links) }
{
    let mut ways = Vec::new(alloc);
    for (link, neighbours) in plan.links.slice().iter().enumerate() {
        push_ways(&mut ways, link as u8, neighbours.slice())?;
    }
    Ok(ways)
}

/// Adds the ways to these neighbours of one link, in order.
fn push_ways(ways: &mut Vec<Way>, link: u8, neighbours: &[Neighbour]) -> Result<(), OutOfMemory>
    requires { length neighbours.now ≤ 16 }
    ensures { OnOk result (ways.new.items ≡ ways.old.items ++ ways_on link 0 neighbours.now) }
{
    for to in 0..neighbours.len() {
        ways.push(Way { link, to: to as u8 })?;
    }
    Ok(())
}

/// The ways to every neighbour of every other link, in order.
pub(crate) fn other_ways(alloc: Global, ways: &[Way], link: u8) -> Result<Vec<Way>, OutOfMemory>
    ensures { IfOk result (λ others. others.items ≡ filter (λ way. not (way.link == link)) ways.now) }
{
    Ok(
        ways.iter()
            .copied()
            .filter(|way| way.link != link)
            .collect(alloc)?,
    )
}

/// A datagram with these bytes along each way.
pub(crate) fn datagrams(
    alloc: Global,
    bytes: &Octets,
    ways: &[Way],
) -> Result<Vec<Output>, OutOfMemory>
    ensures { IfOk result (λ outputs. outputs.items ≡ map (λ way. output.Datagram way.link way.to bytes.now) ways.now) }
{
    let mut outputs = Vec::new(alloc);
    for way in ways {
        outputs.push(Output::Datagram {
            link: way.link,
            to: way.to,
            bytes: bytes.copy()?,
        })?;
    }
    Ok(outputs)
}
