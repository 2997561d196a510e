//! Reading the lines of a header, each by itself.

ghost use Rattle.std.specs.Prelude.{◌≡◌, ◌↔◌, ◌∷◌, ◌++◌, [], ℕ, ◌≤◌, List, map, length, IsTrue, IfOk, IfSome, IfNone, codes, decimal};
ghost use Rattle.grasp_pool.specs.Roots.{block_of};
ghost use Rattle.grasp_text.specs.Line.{prefix_word};
ghost use Rattle.grasp_text.specs.Words.{words_of};
ghost use Rattle.grasp_model_network.specs.Plans.{IsGoodRoot, IsGoodLink};
ghost use Rattle.grasp_model_network.specs.Setting.{is_on};
ghost use Rattle.grasp_model_network.specs.declared.plan.RootAt.{RootAt};
ghost use Rattle.grasp_script.specs.Headers.{nodes_words, limit_words, start_words, root_words, IsNodeCount, IsLimit};

use crate::places::node;
use grasp_cbor::OutOfMemory;
use grasp_model_network::{Members, RootAt};
use grasp_pool::RootPrefix;
use grasp_text::{Words, number, prefix};
use std::alloc::Global;

/// There are at most so many nodes.
const MOST_NODES: u64 = 64;

/// A message has at most so many bytes, at least.
const LEAST_LIMIT: u64 = 2048;

/// A message has at most so many bytes, at most.
const MOST_LIMIT: u64 = 8192;

/// The one number behind a first word, which is the line's last word, or `None`.
fn told_number(line: &[u8], name: &[u8], most: u64) -> Option<u64>
    ensures found { IfSome result (λ n. words_of line.now ≡ name.now ∷ decimal n ∷ []) }
    ensures within { IfSome result (λ n. n ≤ most) }
    ensures none { IfNone result ((n : ℕ) → n ≤ most → ¬ (words_of line.now ≡ name.now ∷ decimal n ∷ [])) }
{
    let mut words = Words::of(line);
    if words.take()? != name {
        return None;
    }
    let n = number(words.take()?, most)?;
    if words.is_over() { Some(n) } else { None }
}

/// How many nodes a line tells, or `None` where it tells no such number.
pub(crate) fn told_nodes(line: &[u8]) -> Option<u8>
    ensures found { IfSome result (λ n. words_of line.now ≡ nodes_words n) }
    ensures good { IfSome result (λ n. IsNodeCount n) }
    ensures none { IfNone result ((n : ℕ) → IsNodeCount n → ¬ (words_of line.now ≡ nodes_words n)) }
{
    match told_number(line, b"nodes", MOST_NODES) {
        Some(n) => { if n >= 1 { Some(n as u8) } else { None } }
        None => None,
    }
}

/// The most bytes of a message that a line tells, or `None` where it tells no such number.
pub(crate) fn told_limit(line: &[u8]) -> Option<u32>
    ensures found { IfSome result (λ n. words_of line.now ≡ limit_words n) }
    ensures good { IfSome result (λ n. IsLimit n) }
    ensures none { IfNone result ((n : ℕ) → IsLimit n → ¬ (words_of line.now ≡ limit_words n)) }
{
    match told_number(line, b"size", MOST_LIMIT) {
        Some(n) => {
            if n >= LEAST_LIMIT {
                Some(n as u32)
            } else {
                None
            }
        }
        None => None,
    }
}

/// Whether a line ends the header.
pub(crate) fn is_start(line: &[u8]) -> bool
    ensures { IsTrue result ↔ (words_of line.now ≡ start_words) }
{
    let mut words = Words::of(line);
    match words.take() {
        Some(word) => word == b"start".as_slice() && words.is_over(),
        None => false,
    }
}

/// The root that words behind `root` tell, or `None`.
pub(crate) fn told_root(words: &mut Words<'_>, nodes: u8) -> Option<RootAt>
    ensures found { IfSome result (λ r. words.old ≡ root_words r) }
    ensures good { IfSome result (λ r. IsGoodRoot nodes r) }
    ensures none { IfNone result ((r : RootAt) → IsGoodRoot nodes r → ¬ (words.old ≡ root_words r)) }
{
    let node = node(words.take()?, nodes)?;
    let prefix = prefix(words.take()?)?;
    if !words.is_over() {
        return None;
    }
    Some(RootAt {
        node,
        root: RootPrefix {
            address: prefix.address(),
            length: prefix.length(),
        },
    })
}

/// A link has at most so many nodes.
const MOST_MEMBERS: u64 = 17;

/// The nodes of a link that words behind `link` tell, or `None`.
pub(crate) fn told_members(
    alloc: Global,
    words: &mut Words<'_>,
    nodes: u8,
) -> Result<Option<Members>, OutOfMemory>
    ensures found { IfOk result (λ o. IfSome o (λ m. words.old ≡ map decimal m)) }
    ensures good { IfOk result (λ o. IfSome o (λ m. IsGoodLink nodes m)) }
    ensures none { IfOk result (λ o. IfNone o ((m : List ℕ) → IsGoodLink nodes m → ¬ (words.old ≡ map decimal m))) }
{
    let mut members = Members::new(alloc);
    while let Some(word) = words.take() {
        let node = match node(word, nodes) {
            Some(node) => node,
            None => return Ok(None),
        };
        if members.len() >= MOST_MEMBERS {
            return Ok(None);
        }
        if is_member(&members, node) {
            return Ok(None);
        }
        members.push(node)?;
    }
    if members.len() < 2 {
        return Ok(None);
    }
    Ok(Some(members))
}

/// Whether a node is on a link.
pub(crate) fn is_member(members: &Members, node: u8) -> bool
    ensures { result ≡ is_on node members.now }
{
    members.slice().contains(&node)
}
