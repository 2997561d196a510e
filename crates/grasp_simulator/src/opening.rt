//! How the nodes of a network and their agents are opened.

ghost use Rattle.std.specs.Prelude.{◌≡◌, ◌≤◌, ◌+◌, false, length, map, IfOk};
ghost use Rattle.grasp_agent.specs.States.{first_agent};
ghost use Rattle.grasp_model_node.specs.Node.{first_node};
ghost use Rattle.grasp_model_node.specs.Plan.{is_bad_plan};
ghost use Rattle.grasp_core.specs.Stands.{NodeStands};
ghost use Rattle.grasp_pool.specs.Functions.{pool_of, pool_of_image};
ghost use Rattle.grasp_pool.specs.Holdings.{Holding};
ghost use Rattle.grasp_pool.specs.Listings.{AreDisjoint, all_of};
ghost use Rattle.grasp_model_network.specs.Plans.{IsNode, IsGoodPlan};
ghost use Rattle.grasp_model_network.specs.Openings.{fresh_seat, opened_seat, first_seat};
ghost use Rattle.grasp_model_network.specs.Runs.{world_of};
ghost use Rattle.grasp_simulator.specs.Listening.{listener_from};
ghost use Rattle.grasp_simulator.specs.Seats.{SeatStands, AreFirst};
ghost use Rattle.grasp_model_network.specs.Setting.{numbers_from, others_on, script_number, script_address, script_locator, script_seed};
ghost use Rattle.grasp_model_network.specs.Setting.{script_neighbour, script_links, script_node, script_roots, script_member, is_on};

use crate::seat::Seat;
use grasp_agent::PrefixAgent;
use grasp_cbor::OutOfMemory;
use grasp_core::{NodeCore, PlanFault};
use grasp_model_network::{Members, WorldPlan};
use grasp_model_node::NodePlan;
use grasp_pool::{PoolFault, PoolImage, RootPrefix};
use grasp_types::{Address, LinkLists, List, Locator, Neighbour, Neighbours, Proto};
use std::alloc::Global;

/// The address of node k is this number and k: fd00::k.
const BEFORE_FIRST: u128 = 0xfd00_0000_0000_0000_0000_0000_0000_0000;

/// Every node listens on this port.
const PORT: u16 = 7017;

/// The number of the node's address.
fn number_of(node: u8) -> u128
    ensures { result ≡ script_number node }
{
    BEFORE_FIRST + u128::from(node)
}

/// The node's address.
pub(crate) fn address_of(node: u8) -> Address
    ensures { result ≡ script_address node }
{
    Address::V6(number_of(node))
}

/// Where the node listens.
pub(crate) fn locator_of(node: u8) -> Locator
    ensures { result ≡ script_locator node }
{
    Locator::V6 {
        address: number_of(node),
        proto: Proto::Tcp,
        port: PORT,
    }
}

/// The node that listens there, among so many.
pub(crate) fn listener(nodes: u8, to: &Locator) -> Option<u8>
    ensures { result ≡ listener_from 1 nodes to.now }
{
    for before in 0..nodes {
        if *to == locator_of(before + 1) {
            return Some(before + 1);
        }
    }
    None
}

/// The seed of the node's random numbers.
fn seed_of(node: u8) -> [u8; 32]
    ensures { result ≡ script_seed node }
{
    let mut seed = [0; 32];
    seed[31] = node;
    seed
}

/// The node as its neighbours know it.
fn neighbour_of(node: u8) -> Neighbour
    ensures { result ≡ script_neighbour node }
{
    Neighbour {
        address: address_of(node),
        locator: locator_of(node),
    }
}

/// Whether a node is on a link.
pub(crate) fn is_on(node: u8, line: &[u8]) -> bool
    ensures { result ≡ is_on node line.now }
{
    line.iter().any(|n| *n == node)
}

/// The neighbours of the node on a link.
fn neighbours_on(alloc: Global, node: u8, line: &[u8]) -> Result<Neighbours, OutOfMemory>
    ensures { IfOk result (λ neighbours. neighbours ≡ map script_neighbour (others_on node line.now)) }
{
    let mut neighbours = List::new(alloc);
    for other in line {
        if *other != node {
            neighbours.push(neighbour_of(*other))?;
        }
    }
    Ok(neighbours)
}

/// The links of the node, each with its neighbours there.
fn links_at(alloc: Global, node: u8, links: &[Members]) -> Result<LinkLists, OutOfMemory>
    ensures { IfOk result (λ lists. lists ≡ script_links node links.now) }
{
    let mut lists = List::new(alloc);
    for line in links {
        if is_on(node, line.slice()) {
            lists.push(neighbours_on(alloc, node, line.slice())?)?;
        }
    }
    Ok(lists)
}

/// What the node is opened with.
fn node_plan(alloc: Global, plan: &WorldPlan, node: u8) -> Result<NodePlan, OutOfMemory>
    ensures { IfOk result (λ opened. opened ≡ script_node plan.now node) }
{
    Ok(NodePlan {
        address: address_of(node),
        locator: locator_of(node),
        links: links_at(alloc, node, plan.links.slice())?,
        seed: seed_of(node),
        limit: plan.limit,
    })
}

/// The prefixes that the node holds from the beginning.
fn roots_of(alloc: Global, plan: &WorldPlan, node: u8) -> Result<Vec<RootPrefix>, OutOfMemory>
    ensures { IfOk result (λ roots. roots.items ≡ script_roots plan.now.roots node) }
{
    Ok(
        plan.roots
            .slice()
            .iter()
            .filter(|root| root.node == node)
            .map(|root| root.root)
            .collect(alloc)?,
    )
}

/// A node to which nothing has happened.
fn open_core(alloc: Global, plan: NodePlan) -> Result<NodeCore, OutOfMemory>
    requires { is_bad_plan plan ≡ false }
    ensures { IfOk result (λ core. NodeStands core (first_node plan)) }
{
    match NodeCore::open(alloc, plan) {
        Ok(core) => Ok(core),
        Err(PlanFault::BadPlan) => unreachable!(),
        Err(PlanFault::OutOfMemory) => Err(OutOfMemory),
    }
}

/// An agent that holds the roots of the node and has made no call.
fn open_agent(alloc: Global, plan: &WorldPlan, node: u8) -> Result<PrefixAgent, OutOfMemory>
    requires { IsGoodPlan plan.now }
    ensures { IfOk result (λ agent. agent ≡ first_agent (pool_of (script_roots plan.now.roots node))) }
{
    let roots = roots_of(alloc, plan, node)?;
    match PrefixAgent::open(alloc, &roots) {
        Ok(agent) => Ok(agent),
        Err(fault) => match fault {
            PoolFault::OutOfMemory => Err(OutOfMemory),
            _ => unreachable!(),
        },
    }
}

/// An agent that holds what the image says and has made no call.
fn reopen_agent(alloc: Global, image: &PoolImage) -> Result<PrefixAgent, OutOfMemory>
    requires few { length image.now.free + length image.now.doubtful ≤ 4096 }
    requires disjoint { AreDisjoint (all_of image.now) }
    ensures { IfOk result (λ agent. agent ≡ first_agent (pool_of_image image.now)) }
{
    match PrefixAgent::reopen(alloc, image) {
        Ok(agent) => Ok(agent),
        Err(fault) => match fault {
            PoolFault::OutOfMemory => Err(OutOfMemory),
            _ => unreachable!(),
        },
    }
}

/// A node in this life, to which nothing has happened, and its agent, which has made no call.
fn fresh_seat(
    alloc: Global,
    plan: &WorldPlan,
    node: u8,
    life: u64,
    agent: PrefixAgent,
) -> Result<Seat, OutOfMemory>
    requires good { IsGoodPlan plan.now }
    requires node { IsNode plan.now.nodes node }
    ensures { IfOk result (λ seat. (seat.life ≡ life) × ((h : Holding) → agent ≡ first_agent h → SeatStands seat (fresh_seat (script_node plan.now node) h))) }
{
    let opened = node_plan(alloc, plan, node)?;
    let core = open_core(alloc, opened)?;
    Ok(Seat { life, core, agent })
}

/// A node in this life whose agent, which had made no call, has made its three opening calls, at reading 0.
fn opened_seat(
    alloc: Global,
    plan: &WorldPlan,
    node: u8,
    life: u64,
    agent: PrefixAgent,
) -> Result<Seat, OutOfMemory>
    requires good { IsGoodPlan plan.now }
    requires node { IsNode plan.now.nodes node }
    ensures { IfOk result (λ seat. (seat.life ≡ life) × ((h : Holding) → agent ≡ first_agent h → SeatStands seat (opened_seat (script_node plan.now node) h))) }
{
    let mut seat = fresh_seat(alloc, plan, node, life, agent)?;
    let _registered = seat.agent_step()?;
    let _declared = seat.agent_step()?;
    let _listening = seat.agent_step()?;
    Ok(seat)
}

/// A node in its first life, whose number is the node's own.
pub(crate) fn open_seat(alloc: Global, plan: &WorldPlan, node: u8) -> Result<Seat, OutOfMemory>
    requires good { IsGoodPlan plan.now }
    requires node { IsNode plan.now.nodes node }
    ensures { IfOk result (λ seat. (seat.life ≡ node) × SeatStands seat (first_seat (script_member plan.now node))) }
{
    let agent = open_agent(alloc, plan, node)?;
    opened_seat(alloc, plan, node, u64::from(node), agent)
}

/// A node that begins anew, in this life, with this image of its pool.
pub(crate) fn reopen_seat(
    alloc: Global,
    plan: &WorldPlan,
    node: u8,
    life: u64,
    image: &PoolImage,
) -> Result<Seat, OutOfMemory>
    requires good { IsGoodPlan plan.now }
    requires node { IsNode plan.now.nodes node }
    requires few { length image.now.free + length image.now.doubtful ≤ 4096 }
    requires disjoint { AreDisjoint (all_of image.now) }
    ensures { IfOk result (λ seat. (seat.life ≡ life) × SeatStands seat (opened_seat (script_node plan.now node) (pool_of_image image.now))) }
{
    let agent = reopen_agent(alloc, image)?;
    opened_seat(alloc, plan, node, life, agent)
}

/// The nodes of the plan, from 1 on, each with its agent, in their first lives.
pub(crate) fn open_seats(alloc: Global, plan: &WorldPlan) -> Result<Vec<Seat>, OutOfMemory>
    requires { IsGoodPlan plan.now }
    ensures { IfOk result (λ seats. AreFirst seats.items (world_of plan.now).seats) }
{
    let mut seats = Vec::new(alloc);
    for before in 0..plan.nodes {
        let seat = open_seat(alloc, plan, before + 1)?;
        seats.push(seat)?;
    }
    Ok(seats)
}

/// Whose life each of the first ones is.
pub(crate) fn first_lives(alloc: Global, nodes: u8) -> Result<Members, OutOfMemory>
    ensures { IfOk result (λ lives. lives ≡ numbers_from 1 nodes) }
{
    let mut lives = List::new(alloc);
    for before in 0..nodes {
        lives.push(before + 1)?;
    }
    Ok(lives)
}
