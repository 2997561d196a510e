//! The plans of the nodes of a row.
use grasp_cbor::OutOfMemory;
use grasp_model_node::NodePlan;
use grasp_types::{Address, LinkLists, Locator, Neighbour, Neighbours, Proto};
use std::alloc::Global;

/// The port on which all nodes listen.
const PORT: u16 = 7017;

/// The number of the address of a node: its bytes are fd, fourteen zero bytes and the node's number.
fn address_number(node: u8) -> u128 {
    let mut bytes = [0u8; 16];
    bytes[0] = 0xfd;
    bytes[15] = node;
    u128::from_be_bytes(bytes)
}

/// The address of a node.
pub fn address_of(node: u8) -> Address {
    Address::V6(address_number(node))
}

/// Where a node listens.
pub fn locator_of(node: u8) -> Locator {
    Locator::V6 {
        address: address_number(node),
        proto: Proto::Tcp,
        port: PORT,
    }
}

/// The neighbours of a node on a link with these members.
fn neighbours_of(alloc: Global, node: u8, members: &[u8]) -> Result<Neighbours, OutOfMemory> {
    let mut neighbours = Neighbours::new(alloc);
    for member in members {
        if *member != node {
            neighbours.push(Neighbour {
                address: address_of(*member),
                locator: locator_of(*member),
            })?;
        }
    }
    Ok(neighbours)
}

/// The links of a node among these.
fn links_of(alloc: Global, node: u8, links: &[Vec<u8>]) -> Result<LinkLists, OutOfMemory> {
    let mut own = LinkLists::new(alloc);
    for link in links {
        if link.as_slice().contains(&node) {
            own.push(neighbours_of(alloc, node, link.as_slice())?)?;
        }
    }
    Ok(own)
}

/// The plan of a node.
pub fn plan_of(
    alloc: Global,
    node: u8,
    links: &[Vec<u8>],
    limit: u32,
) -> Result<NodePlan, OutOfMemory> {
    let mut seed = [0u8; 32];
    seed[31] = node;
    Ok(NodePlan {
        address: address_of(node),
        locator: locator_of(node),
        links: links_of(alloc, node, links)?,
        seed,
        limit,
    })
}
