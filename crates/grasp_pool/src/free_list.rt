//! The list of the maximal free prefixes: how it grows and shrinks by whole prefixes.

ghost use Rattle.std.specs.Prelude.{[], IfOk, IfSome, IfNone, ◌≡◌, ◌-◌, ◌<◌, ◌≤◌, Contains, is_some, length, slice_index_or, true, false};
ghost use Rattle.grasp_types.specs.Prefix.{AddressBlock};
ghost use Rattle.grasp_pool.specs.Spans.{IsValid};
ghost use Rattle.grasp_pool.specs.Canonical.{IsTidy};
ghost use Rattle.grasp_pool.specs.Parts.{ApartFrom, HasRoom, IsFirstPlace};
ghost use Rattle.grasp_pool.specs.Functions.{add, without, joins, parent_of, buddy_of, merge, half_at, half_off, split_at, lowest_free, carved_list};
ghost use Rattle.grasp_pool.specs.Functions.{meeting, around, rest_at};

use crate::firsts::{note_added, note_removed};
use crate::halves::{halves_of, parts_of, prefix_at};
use crate::overlapping::first_overlap;
use crate::sorted_list::{find_prefix, insert_prefix, remove_at};
use grasp_types::Prefix;
use std::alloc::{AllocError, Global};
use std::marker::Model;

/// How many entries a pool has at most: maximal free, reserved and doubtful prefixes together.
pub const MOST_ENTRIES: usize = 4096;

/// How many lengths there are, 0 to 128.
const LENGTHS: usize = 129;

/// The maximal free prefixes in rising order, and for each length up to 128 the first of them that is no longer.
///
/// `open` takes memory for 4096 entries, and nothing else takes any.
#[derive(Drop)]
pub struct FreeList {
    entries: Vec<Prefix>,
    firsts: Vec<Option<Prefix>>,
}

impl Model for FreeList {
    ghost use Rattle.std.specs.Prelude.{List, vec_capacity};
    ghost use Rattle.grasp_types.specs.Prefix.{AddressBlock};
    ghost use Rattle.grasp_pool.specs.Parts.{IsFreeList};

    ghost Value = { List AddressBlock };

    ghost view = { λ s. s.entries.items };

    ghost invariant = { λ s. IsFreeList s.entries.items s.firsts.items (vec_capacity s.entries) };
}

impl FreeList {
    /// An empty list.
    pub fn open(alloc: Global) -> Result<FreeList, AllocError>
        ensures { IfOk result (λ list. list ≡ []) }
    {
        let entries = Vec::with_capacity(alloc, MOST_ENTRIES)?;
        let firsts = vec![in alloc; None; LENGTHS]?;
        Ok(FreeList { entries, firsts })
    }

    /// The entries, in rising order.
    pub fn entries(&self) -> &[Prefix]
        ensures { result.now ≡ self.now }
    {
        &self.entries
    }

    /// Puts an entry into the list.
    fn insert(&mut self, prefix: Prefix)
        requires room { HasRoom self.old 1 }
        requires is_new { (q : AddressBlock) → Contains self.old q → ¬ (q.address ≡ prefix.address) }
        ensures { self.new ≡ add prefix self.old }
    {
        insert_prefix(&mut self.entries, prefix);
        note_added(&mut self.firsts, prefix);
    }

    /// Takes the entry at this place out of the list.
    fn remove(&mut self, i: usize) -> Prefix
        requires { i < length self.old }
        ensures value { result ≡ slice_index_or self.old i result }
        ensures is { self.new ≡ without result.address self.old }
    {
        let prefix = remove_at(&mut self.entries, i);
        note_removed(&mut self.firsts, &self.entries, i, prefix);
        prefix
    }

    /// Takes an entry out of the list.
    fn take_out(&mut self, prefix: Prefix)
        requires { Contains self.old prefix }
        ensures { self.new ≡ without prefix.address self.old }
    {
        let Some(i) = find_prefix(&self.entries, prefix) else {
            unreachable!()
        };
        self.remove(i);
    }

    /// Puts one half of a prefix into the list, and returns the other one, which has this address.
    fn halve_at(&mut self, whole: Prefix, address: u128) -> Prefix
        requires room { HasRoom self.old 1 }
        requires valid { IsValid whole }
        requires short { whole.length < 128 }
        requires apart { ApartFrom self.old whole }
        ensures value { result ≡ half_at whole address }
        ensures is { self.new ≡ add (half_off whole address) self.old }
    {
        let parts = parts_of(whole);
        if address < parts.upper.address() {
            self.insert(parts.upper);
            parts.lower
        } else {
            self.insert(parts.lower);
            parts.upper
        }
    }

    /// Puts all of a prefix into the list but this part of it.
    fn split_to(&mut self, whole: Prefix, part: Prefix)
        requires tidy { IsTidy self.old }
        requires room { HasRoom self.old (part.length - whole.length) }
        requires valid { IsValid whole }
        requires longer { whole.length ≤ part.length }
        requires apart { ApartFrom self.old whole }
        ensures { self.new ≡ split_at (part.length - whole.length) whole part.address self.old }
    {
        if whole.length() < part.length() {
            let half = self.halve_at(whole, part.address());
            self.split_to(half, part);
        }
    }

    /// The place of the first entry that is no longer than `most`.
    fn first_place(&self, most: u8) -> Option<usize>
        requires { most ≤ 128 }
        ensures { IsFirstPlace self.now most result }
    {
        let Some(first) = self.firsts[usize::from(most)] else {
            return None;
        };
        find_prefix(&self.entries, first)
    }

    /// Takes the prefix of this length with the least address out of the list.
    pub fn carve(&mut self, length: u8) -> Option<Prefix>
        requires tidy { IsTidy self.old }
        requires room { HasRoom self.old 126 }
        requires some { 1 ≤ length }
        requires most { length ≤ 128 }
        ensures reply { result ≡ lowest_free self.old length }
        ensures after { self.new ≡ carved_list self.old length }
    {
        let Some(i) = self.first_place(length) else {
            return None;
        };
        let whole = self.remove(i);
        let part = prefix_at(whole.address(), length);
        self.split_to(whole, part);
        Some(part)
    }

    /// The first entry that overlaps a prefix.
    fn meeting(&self, prefix: Prefix) -> Option<Prefix>
        requires { IsTidy self.now }
        ensures { result ≡ meeting self.now prefix }
    {
        first_overlap(&self.entries, prefix)
    }

    /// The entry that has all of a prefix.
    pub fn around(&self, prefix: Prefix) -> Option<Prefix>
        requires { IsTidy self.now }
        ensures { result ≡ around self.now prefix }
    {
        match self.meeting(prefix) {
            Some(whole) => {
                if whole.length() <= prefix.length() {
                    Some(whole)
                } else {
                    None
                }
            }
            None => None,
        }
    }

    /// Takes this prefix out of the list, and answers whether all of its addresses were there: if not, nothing changes.
    pub fn carve_at(&mut self, prefix: Prefix) -> bool
        requires tidy { IsTidy self.old }
        requires room { HasRoom self.old 126 }
        ensures reply { result ≡ is_some (around self.old prefix) }
        ensures after { self.new ≡ rest_at self.old prefix (around self.old prefix) }
    {
        // What is read of a prefix tells that it is one.
        let _address = prefix.address();
        let Some(whole) = self.around(prefix) else {
            return false;
        };
        self.take_out(whole);
        self.split_to(whole, prefix);
        true
    }

    /// Takes the buddy of a prefix out of the list, and returns what both make up.
    fn join_buddy(&mut self, prefix: Prefix) -> Option<Prefix>
        ensures joined { IfSome result
            (λ r. (joins self.old prefix ≡ true) × (r ≡ parent_of prefix)
            × (self.new ≡ without (buddy_of prefix).address self.old)) }
        ensures alone { IfNone result ((joins self.old prefix ≡ false) × (self.new ≡ self.old)) }
    {
        if prefix.length() < 2 {
            return None;
        }
        let halves = halves_of(prefix);
        match find_prefix(&self.entries, halves.buddy) {
            Some(i) => {
                self.remove(i);
                Some(halves.parent)
            }
            None => None,
        }
    }

    /// Puts a prefix into the list, and joins it with its buddies.
    pub fn merge_in(&mut self, prefix: Prefix)
        requires tidy { IsTidy self.old }
        requires room { HasRoom self.old 1 }
        requires valid { IsValid prefix }
        requires apart { ApartFrom self.old prefix }
        ensures { self.new ≡ merge prefix.length prefix self.old }
    {
        match self.join_buddy(prefix) {
            Some(parent) => self.merge_in(parent),
            None => self.insert(prefix),
        }
    }
}
