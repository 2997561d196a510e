//! Reading nodes and sessions by their numbers.

ghost use Rattle.std.specs.Prelude.{◌≡◌, ◌<◌, ◌^◌};
ghost use Rattle.grasp_text.specs.Reading.{Reads, word_at};
ghost use Rattle.grasp_model_network.specs.Setting.{script_number, script_address, script_locator};
ghost use Rattle.grasp_script.specs.Grammar.{node_of, peer_of, initiator_of, handle_of, named, kind_of, dry_of, far_of, prefix_of};

use crate::names::{dry, far, kind};
use grasp_text::{WordFault, Words, number, prefix};
use grasp_types::{Address, Handle, Kind, Locator, Prefix, Proto};

/// The address before that of node 1: node k has the address fd00::k.
const BEFORE_NODES: u128 = 0xfd00_0000_0000_0000_0000_0000_0000_0000;

/// The port on which each node listens.
const PORT: u16 = 7017;

/// The node of a number, where there is one of `nodes` nodes.
#[tactic(auto, unfolding(crate::specs::Grammar::node_of))]
pub(crate) fn node(word: &[u8], nodes: u8) -> Option<u8>
    ensures { result ≡ node_of nodes word.now }
{
    match number(word, u64::from(nodes)) {
        Some(node) => { if node >= 1 { Some(node as u8) } else { None } }
        None => None,
    }
}

/// The address of a node.
fn node_address(node: u8) -> u128
    ensures { result ≡ script_number node }
{
    BEFORE_NODES + u128::from(node)
}

/// Takes the number of a node.
pub fn read_node(words: &mut Words<'_>, nodes: u8) -> Result<u8, WordFault>
    ensures { Reads (λ k. k) result words.new (word_at (node_of nodes) words.old) }
{
    let (word, unfit) = words.next()?;
    node(word, nodes).ok_or(unfit)
}

/// Takes the number of a node, for the locator at which it listens.
#[tactic(auto, unfolding(crate::specs::Grammar::peer_of))]
pub(crate) fn read_peer(words: &mut Words<'_>, nodes: u8) -> Result<Locator, WordFault>
    ensures { Reads (λ l. l) result words.new (word_at (peer_of nodes) words.old) }
{
    let (word, unfit) = words.next()?;
    match node(word, nodes) {
        Some(node) => Ok(Locator::V6 {
            address: node_address(node),
            proto: Proto::Tcp,
            port: PORT,
        }),
        None => Err(unfit),
    }
}

/// Takes a prefix.
pub fn read_prefix(words: &mut Words<'_>) -> Result<Prefix, WordFault>
    ensures { Reads (λ p. p) result words.new (word_at prefix_of words.old) }
{
    let (word, unfit) = words.next()?;
    told_prefix(word).ok_or(unfit)
}

/// The prefix of a word.
fn told_prefix(word: &[u8]) -> Option<Prefix>
    ensures { result ≡ prefix_of word.now }
{
    prefix(word)
}

/// Takes the number of a node, for its address.
#[tactic(auto, unfolding(crate::specs::Grammar::initiator_of))]
pub(crate) fn read_initiator(words: &mut Words<'_>, nodes: u8) -> Result<Address, WordFault>
    ensures { Reads (λ a. a) result words.new (word_at (initiator_of nodes) words.old) }
{
    let (word, unfit) = words.next()?;
    match node(word, nodes) {
        Some(node) => Ok(Address::V6(node_address(node))),
        None => Err(unfit),
    }
}

/// Takes the number of a session. Its place isn't known, and is told as 0.
#[tactic(auto, unfolding(crate::specs::Grammar::handle_of))]
pub fn read_handle(words: &mut Words<'_>) -> Result<Handle, WordFault>
    ensures { Reads (λ h. h) result words.new (word_at handle_of words.old) }
{
    let (word, unfit) = words.next()?;
    match number(word, u64::MAX) {
        Some(number) => Ok(Handle { place: 0, number }),
        None => Err(unfit),
    }
}

/// Takes what an objective is searched for.
pub(crate) fn read_kind(words: &mut Words<'_>) -> Result<Kind, WordFault>
    ensures { Reads (λ k. k) result words.new (word_at kind_of words.old) }
{
    let (word, unfit) = words.next()?;
    kind(word).ok_or(unfit)
}

/// Takes whether a request is a dry run.
pub fn read_dry(words: &mut Words<'_>) -> Result<bool, WordFault>
    ensures { Reads (λ d. d) result words.new (word_at dry_of words.old) }
{
    let (word, unfit) = words.next()?;
    dry(word).ok_or(unfit)
}

/// Takes a side of a stream: whether it is that of the node which was dialled.
pub(crate) fn read_far(words: &mut Words<'_>) -> Result<bool, WordFault>
    ensures { Reads (λ f. f) result words.new (word_at far_of words.old) }
{
    let (word, unfit) = words.next()?;
    far(word).ok_or(unfit)
}
