//! The ways that datagrams go.

ghost use Rattle.std.specs.Prelude.{◌≡◌, ◌≤◌, ◌==◌, length, option_map, position, slice_get, Some, IfOk};
ghost use Rattle.grasp_model_network.specs.Routes.{place_among};
ghost use Rattle.grasp_model_network.specs.Setting.{line_of, lines_of, others_on};
ghost use Rattle.grasp_simulator.specs.Sends.{made_way, IsWay};

use crate::opening::is_on;
use grasp_cbor::OutOfMemory;
use grasp_model_network::Members;
use grasp_types::List;
use std::alloc::Global;

/// Who receives a datagram, on which of its links, and from which of its neighbours there.
#[derive(Clone, Copy, Debug, PartialEq, Eq)]
pub(crate) struct Way {
    pub(crate) receiver: u8,
    pub(crate) link: u8,
    pub(crate) from: u8,
}

/// The way from a node to its neighbour of this number on its link of this number.
pub(crate) fn way_to(
    alloc: Global,
    links: &[Members],
    node: u8,
    link: u8,
    to: u8,
) -> Result<Option<Way>, OutOfMemory>
    ensures { IfOk result (IsWay links.now node link to) }
{
    let Some(place) = line_at(links, node, link) else {
        return Ok(None);
    };
    let Some(line) = line_in(links, place) else {
        return Ok(None);
    };
    let others = others_on(alloc, node, line.slice())?;
    let Some(receiver) = others.at(u64::from(to)) else {
        return Ok(None);
    };
    let back = others_on(alloc, *receiver, line.slice())?;
    let link = small(links_of(&links[..place], *receiver));
    let from = small(place_among(back.slice(), node));
    Ok(made_way(*receiver, link, from))
}

/// The way of these numbers.
fn made_way(receiver: u8, link: Option<u8>, from: Option<u8>) -> Option<Way>
    ensures { result ≡ made_way receiver link from }
{
    let link = link?;
    let from = from?;
    Some(Way {
        receiver,
        link,
        from,
    })
}

/// The place of the line that is the node's link of this number.
fn line_at(links: &[Members], node: u8, link: u8) -> Option<usize>
    ensures { result ≡ line_of node links.now link }
{
    let mut left = link;
    for i in 0..links.len() {
        if is_on(node, links[i].slice()) {
            if left == 0 {
                return Some(i);
            }
            left -= 1;
        }
    }
    None
}

/// The line at this place.
fn line_in(links: &[Members], place: usize) -> Option<&Members>
    ensures { option_map (λ line. line.now) result ≡ slice_get links.now place }
{
    links.get(place)
}

/// The other nodes on a line.
fn others_on(alloc: Global, node: u8, line: &[u8]) -> Result<Members, OutOfMemory>
    ensures { IfOk result (λ others. others ≡ others_on node line.now) }
{
    let mut others = List::new(alloc);
    for other in line {
        if *other != node {
            others.push(*other)?;
        }
    }
    Ok(others)
}

/// The place of a node among these, and 0 where it isn't one of them.
fn place_among(others: &[u8], node: u8) -> usize
    ensures { result ≡ place_among node others.now }
{
    place_of(others, node).unwrap_or(0)
}

/// The place of a node among these.
fn place_of(others: &[u8], node: u8) -> Option<usize>
    ensures { result ≡ position (λ n. n == node) others.now }
{
    others.iter().position(|n| *n == node)
}

/// On how many of these lines a node is.
fn links_of(links: &[Members], node: u8) -> usize
    ensures { result ≡ length (lines_of node links.now) }
{
    links
        .iter()
        .filter(|line| is_on(node, line.slice()))
        .count()
}

/// The number as one of few bits, where it is small.
fn small(number: usize) -> Option<u8>
    ensures { number ≤ 255 → result ≡ Some number }
{
    u8::try_from(number).ok()
}
