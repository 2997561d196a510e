//! Whether a plan stays good with one more line of its header.

ghost use Rattle.std.specs.Prelude.{◌≡◌, ◌≤◌, ◌<◌, ◌↔◌, ◌∷◌, ◌++◌, [], ℕ, ◌+◌, ◌-◌, ◌^◌, List, All, map, length, true, IsTrue, IfOk, IfSome, IfNone};
ghost use Rattle.std.specs.Prelude.{codes, decimal};
ghost use Rattle.grasp_pool.specs.Roots.{block_of};
ghost use Rattle.grasp_pool.specs.Spans.{IsValid, Apart, size};
ghost use Rattle.grasp_text.specs.Words.{words_of};
ghost use Rattle.grasp_model_network.specs.Plans.{IsGoodPlan, IsGoodRoot, AreApart};
ghost use Rattle.grasp_model_network.specs.Setting.{lines_of, is_on};
ghost use Rattle.grasp_script.specs.Headers.{root_words, header_line_words, plan_with, RootFits, LinkFits};
ghost use Rattle.grasp_script.specs.declared.header.HeaderLine.{HeaderLine};
ghost use Rattle.grasp_script.specs.declared.header.HeaderLine.TheVariants.{Root, Link};

use crate::header::HeaderLine;
use crate::opening::{is_member, told_members, told_root};
use grasp_cbor::OutOfMemory;
use grasp_model_network::{MemberLists, Members, RootAt, RootList, WorldPlan};
use grasp_pool::RootPrefix;
use grasp_text::Words;
use std::alloc::Global;

/// There are at most so many roots.
const MOST_ROOTS: u64 = 1024;

/// A node is on at most so many links.
const MOST_LINKS: u64 = 16;

/// The root or the link that a line tells, where the plan stays good with it, or `None`.
pub(crate) fn told_line(
    alloc: Global,
    line: &[u8],
    plan: &WorldPlan,
) -> Result<Option<HeaderLine>, OutOfMemory>
    requires { IsGoodPlan plan.now }
    ensures found { IfOk result (λ o. IfSome o (λ i. words_of line.now ≡ header_line_words i)) }
    ensures good { IfOk result (λ o. IfSome o (λ i. IsGoodPlan (plan_with plan.now i))) }
    ensures none { IfOk result (λ o. IfNone o ((i : HeaderLine) → words_of line.now ≡ header_line_words i → ¬ IsGoodPlan (plan_with plan.now i))) }
{
    let mut words = Words::of(line);
    let Some(name) = words.take() else {
        return Ok(None);
    };
    if name == b"root".as_slice() {
        match fitting_root(&mut words, plan) {
            Some(root) => Ok(Some(HeaderLine::Root(root))),
            None => Ok(None),
        }
    } else if name == b"link".as_slice() {
        match fitting_link(alloc, &mut words, plan)? {
            Some(members) => Ok(Some(HeaderLine::Link(members))),
            None => Ok(None),
        }
    } else {
        Ok(None)
    }
}

/// The root that words behind `root` tell, where it fits into the plan.
fn fitting_root(words: &mut Words<'_>, plan: &WorldPlan) -> Option<RootAt>
    requires { IsGoodPlan plan.now }
    ensures found { IfSome result (λ r. words.old ≡ root_words r) }
    ensures fits { IfSome result (λ r. RootFits plan.now r) }
    ensures none { IfNone result ((r : RootAt) → words.old ≡ root_words r → ¬ RootFits plan.now r) }
{
    let root = told_root(words, plan.nodes)?;
    if plan.roots.len() >= MOST_ROOTS {
        return None;
    }
    if is_apart(&plan.roots, root.root) {
        Some(root)
    } else {
        None
    }
}

/// The link that words behind `link` tell, where it fits into the plan.
fn fitting_link(
    alloc: Global,
    words: &mut Words<'_>,
    plan: &WorldPlan,
) -> Result<Option<Members>, OutOfMemory>
    requires { IsGoodPlan plan.now }
    ensures found { IfOk result (λ o. IfSome o (λ m. words.old ≡ map decimal m)) }
    ensures fits { IfOk result (λ o. IfSome o (λ m. LinkFits plan.now m)) }
    ensures none { IfOk result (λ o. IfNone o ((m : List ℕ) → words.old ≡ map decimal m → ¬ LinkFits plan.now m)) }
{
    match told_members(alloc, words, plan.nodes)? {
        Some(members) => {
            if has_room(&plan.links, &members) {
                Ok(Some(members))
            } else {
                Ok(None)
            }
        }
        None => Ok(None),
    }
}

/// How many addresses a root has.
fn size_of(root: RootPrefix) -> u128
    requires { IsValid (block_of root) }
    ensures { result ≡ size (block_of root) }
{
    1u128 << (128 - root.length)
}

/// The last address of a root.
fn last_address(root: RootPrefix) -> u128
    requires { IsValid (block_of root) }
    ensures { result + 1 ≡ root.address + size (block_of root) }
{
    let size = size_of(root);
    root.address + (size - 1)
}

/// Whether two roots have no address in common.
fn are_apart(first: RootPrefix, second: RootPrefix) -> bool
    requires first { IsValid (block_of first) }
    requires second { IsValid (block_of second) }
    ensures { IsTrue result ↔ Apart (block_of first) (block_of second) }
{
    last_address(first) < second.address || last_address(second) < first.address
}

/// Whether a root has no address in common with the others.
fn is_apart(roots: &RootList, root: RootPrefix) -> bool
    requires others { All (λ r. IsValid (block_of r.root)) roots.now }
    requires this { IsValid (block_of root) }
    ensures { IsTrue result ↔ All (λ r. Apart (block_of r.root) (block_of root)) roots.now }
{
    for i in 0..roots.len() {
        let Some(other) = roots.at(i) else {
            unreachable!()
        };
        if !are_apart(other.root, root) {
            return false;
        }
    }
    true
}

/// On how many links a node is.
fn links_with(links: &MemberLists, node: u8) -> u64
    ensures { result ≡ length (lines_of node links.now) }
{
    let mut count = 0;
    for i in 0..links.len() {
        let Some(members) = links.at(i) else {
            unreachable!()
        };
        count = counted(count, members, node);
    }
    count
}

/// One more where a node is on a link.
fn counted(count: u64, members: &Members, node: u8) -> u64
    requires { count < 2 ^ 64 - 1 }
    ensures value { result ≡ count + length (lines_of node (members.now ∷ [])) }
    ensures least { result ≤ count + 1 }
{
    if is_member(members, node) {
        count + 1
    } else {
        count
    }
}

/// Whether each node of a link can be on one more.
fn has_room(links: &MemberLists, members: &Members) -> bool
    ensures { IsTrue result ↔ All (λ node. length (lines_of node links.now) < 16) members.now }
{
    for i in 0..members.len() {
        let Some(node) = members.at(i) else {
            unreachable!()
        };
        if links_with(links, *node) >= MOST_LINKS {
            return false;
        }
    }
    true
}
