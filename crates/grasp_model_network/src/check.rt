//! Whether a network can be opened with a plan.

ghost use Rattle.std.specs.Prelude.{◌≡◌, ◌≢◌, ◌≤◌, ◌<◌, ◌+◌, ◌↔◌, All, AllPairs, IsTrue, length};
ghost use Rattle.grasp_pool.specs.Roots.{block_of};
ghost use Rattle.grasp_pool.specs.Spans.{IsValid, Apart, size};
ghost use Rattle.grasp_model_network.specs.Checks.{IsInRange, HasGoodRoots, HasGoodLinks, AreFew, AreValid, IsApartBelow, IsNewBelow};
ghost use Rattle.grasp_model_network.specs.Plans.{IsNode, IsGoodRoot, AreApart, IsGoodLink, IsGoodPlan};
ghost use Rattle.grasp_model_network.specs.Setting.{is_on, lines_of};

use crate::plan::{Members, RootAt, WorldPlan};
use grasp_pool::RootPrefix;
use grasp_types::Prefix;

/// There are at most so many roots.
const MOST_ROOTS: u64 = 1024;

/// A node is on at most so many links.
const MOST_LINKS: usize = 16;

impl WorldPlan {
    /// Whether a network can be opened with this plan: it has 1 to 64 nodes, messages of at most 2048 to 8192 bytes, at most
    /// 1024 roots at its nodes, of which no two overlap, and links of 2 to 17 different nodes each, at most 16 at a node.
    ///
    /// It takes no memory.
    pub fn check(&self) -> bool
        ensures { IsTrue result ↔ IsGoodPlan self.now }
    {
        if !self.is_in_range() {
            return false;
        }
        self.has_good_roots() && self.has_good_links()
    }

    /// Whether the numbers of the plan are in range, and there aren't too many roots.
    fn is_in_range(&self) -> bool
        ensures { IsTrue result ↔ IsInRange self.now }
    {
        (1..=64).contains(&self.nodes)
            && (2048..=8192).contains(&self.limit)
            && self.roots.len() <= MOST_ROOTS
    }

    /// Whether each root is a prefix at one of the nodes, and no two overlap.
    fn has_good_roots(&self) -> bool
        ensures { IsTrue result ↔ HasGoodRoots self.now }
    {
        let roots = self.roots.slice();
        are_good_roots(self.nodes, roots) && are_apart(roots)
    }

    /// Whether each link is a good one, and no node is on too many.
    fn has_good_links(&self) -> bool
        ensures { IsTrue result ↔ HasGoodLinks self.now }
    {
        let links = self.links.slice();
        are_good_links(self.nodes, links) && are_few(self.nodes, links)
    }
}

/// Whether there is a node of this number.
fn is_node(nodes: u8, node: u8) -> bool
    ensures { IsTrue result ↔ IsNode nodes node }
{
    1 <= node && node <= nodes
}

/// Whether each root is a prefix, at one of the nodes.
fn are_good_roots(nodes: u8, roots: &[RootAt]) -> bool
    ensures { IsTrue result ↔ All (IsGoodRoot nodes) roots.now }
{
    for root in roots {
        if !is_good_root(nodes, root) {
            return false;
        }
    }
    true
}

/// Whether the root is a prefix, at one of the nodes.
fn is_good_root(nodes: u8, root: &RootAt) -> bool
    ensures { IsTrue result ↔ IsGoodRoot nodes root.now }
{
    is_node(nodes, root.node) && is_prefix(root.root)
}

/// Whether the root is a prefix.
fn is_prefix(root: RootPrefix) -> bool
    ensures { IsTrue result ↔ IsValid (block_of root) }
{
    Prefix::of(root.address, root.length).is_some()
}

/// Whether no two of the roots, which are prefixes, have an address in common.
fn are_apart(roots: &[RootAt]) -> bool
    requires { AreValid roots.now }
    ensures { IsTrue result ↔ AllPairs AreApart roots.now }
{
    for place in 0..roots.len() {
        if !is_apart_below(roots, place) {
            return false;
        }
    }
    true
}

/// Whether the root at this place has no address in common with one before it.
fn is_apart_below(roots: &[RootAt], place: usize) -> bool
    requires valid { AreValid roots.now }
    requires within { place < length roots.now }
    ensures { IsTrue result ↔ IsApartBelow roots.now place }
{
    let root = roots[place].root;
    for before in 0..place {
        if !are_two_apart(roots[before].root, root) {
            return false;
        }
    }
    true
}

/// Whether the two, which are prefixes, have no address in common.
fn are_two_apart(first: RootPrefix, second: RootPrefix) -> bool
    requires first { IsValid (block_of first) }
    requires second { IsValid (block_of second) }
    ensures { IsTrue result ↔ Apart (block_of first) (block_of second) }
{
    last_of(first) < second.address || last_of(second) < first.address
}

/// The last address of a prefix.
fn last_of(root: RootPrefix) -> u128
    requires { IsValid (block_of root) }
    ensures { result + 1 ≡ root.address + size (block_of root) }
{
    let size = size_of(root);
    root.address + (size - 1)
}

/// How many addresses a prefix has.
fn size_of(root: RootPrefix) -> u128
    requires { IsValid (block_of root) }
    ensures { result ≡ size (block_of root) }
{
    1u128 << (128 - root.length)
}

/// Whether each link has 2 to 17 different nodes.
fn are_good_links(nodes: u8, links: &[Members]) -> bool
    ensures { IsTrue result ↔ All (IsGoodLink nodes) links.now }
{
    links.iter().all(|line| is_good_link(nodes, line.slice()))
}

/// Whether the link has 2 to 17 different nodes.
fn is_good_link(nodes: u8, line: &[u8]) -> bool
    ensures { IsTrue result ↔ IsGoodLink nodes line.now }
{
    (2..=17).contains(&line.len()) && are_nodes(nodes, line) && are_different(line)
}

/// Whether there is a node of each of these numbers.
fn are_nodes(nodes: u8, line: &[u8]) -> bool
    ensures { IsTrue result ↔ All (IsNode nodes) line.now }
{
    line.iter().all(|node| is_node(nodes, *node))
}

/// Whether no two of the numbers are the same.
fn are_different(line: &[u8]) -> bool
    ensures { IsTrue result ↔ AllPairs (λ a b. a ≢ b) line.now }
{
    for place in 0..line.len() {
        if !is_new_below(line, place) {
            return false;
        }
    }
    true
}

/// Whether the number at this place differs from those before it.
fn is_new_below(line: &[u8], place: usize) -> bool
    requires { place < length line.now }
    ensures { IsTrue result ↔ IsNewBelow line.now place }
{
    for before in 0..place {
        if line[before] == line[place] {
            return false;
        }
    }
    true
}

/// Whether no node is on more than 16 links.
fn are_few(nodes: u8, links: &[Members]) -> bool
    ensures { IsTrue result ↔ AreFew nodes links.now }
{
    for before in 0..nodes {
        if links_of(before + 1, links) > MOST_LINKS {
            return false;
        }
    }
    true
}

/// On how many links a node is.
fn links_of(node: u8, links: &[Members]) -> usize
    ensures { result ≡ length (lines_of node links.now) }
{
    links
        .iter()
        .filter(|line| is_on(node, line.slice()))
        .count()
}

/// Whether a node is on a link.
fn is_on(node: u8, line: &[u8]) -> bool
    ensures { result ≡ is_on node line.now }
{
    line.iter().any(|n| *n == node)
}
