//! The pool: what is free, reserved and doubtful.

ghost use Rattle.std.specs.Prelude.{◌≡◌, [], ◌↔◌, ◌≤◌, Contains, IfOk, IfErr, IsTrue, is_ok, is_some, MatchResult, slice_get};
ghost use Rattle.grasp_pool.specs.Spans.{IsValid};
ghost use Rattle.grasp_pool.specs.Parts.{IsAnswer};
ghost use Rattle.grasp_pool.specs.Pools.{IsPool, entries, room_of};
ghost use Rattle.grasp_pool.specs.Answers.{IsOpened, IsReopened, IsRootFault, IsImageFault, IsRefused};
ghost use Rattle.grasp_pool.specs.declared.fault.PoolFault.TheVariants.{OutOfMemory};
ghost use Rattle.grasp_pool.specs.Functions.{pool_of, pool_of_image, can_gain, take_reply, after_take, around, take_at_reply, after_take_at};
ghost use Rattle.grasp_pool.specs.Functions.{after_back, after_confirm, after_doubt, after_settle, after_gaining};

use crate::fault::{GainFault, PoolFault};
use crate::free_list::{FreeList, MOST_ENTRIES};
use crate::image::PoolImage;
use crate::listing::{Listing, fill, first_clash};
use crate::overlapping::{first_overlap, lesser};
use crate::roots::{RootPrefix, fill_roots, first_bad, first_root_clash};
use crate::sorted_list::{drop_prefix, find_prefix, insert_all, insert_prefix};
use grasp_types::Prefix;
use std::alloc::Global;
use std::marker::Model;

/// How many roots a pool is opened with at most.
const MOST_ROOTS: usize = 1024;

/// The room that `take` and `take_at` need: they leave up to 127 pieces of a free prefix and one reserved prefix.
const TAKE_ROOM: u64 = 128;

/// The prefixes of a node: which are free, which are reserved for an offer, and which are in doubt (RFC 8992).
///
/// `open` and `reopen` take all the memory that the pool will ever need, and no later call takes any.
#[derive(Drop)]
pub struct Pool {
    free: FreeList,
    reserved: Vec<Prefix>,
    doubtful: Vec<Prefix>,
}

impl Model for Pool {
    ghost use Rattle.std.specs.Prelude.{vec_capacity};
    ghost use Rattle.grasp_pool.specs.Holdings.{Holding};
    ghost use Rattle.grasp_pool.specs.Pools.{IsStored};

    ghost Value = { Holding };

    ghost view = { λ s. record { free = s.free; reserved = s.reserved.items; doubtful = s.doubtful.items } };

    ghost invariant = { λ s. IsStored (record { free = s.free; reserved = s.reserved.items; doubtful = s.doubtful.items })
        (vec_capacity s.reserved) (vec_capacity s.doubtful) };
}

impl Pool {
    /// A pool whose free addresses are those of the roots.
    ///
    /// `TooMany` above 1,024 roots; then `BadRoot` for the first root that is no prefix; then `Overlap` for
    /// the least second root that overlaps an earlier one, with the least such first; then `OutOfMemory`.
    pub fn open(alloc: Global, roots: &[RootPrefix]) -> Result<Pool, PoolFault>
        ensures pool { IfOk result (λ pool. IsPool pool) }
        ensures is { IfOk result (λ pool. pool ≡ pool_of roots.now) }
        ensures opened { MatchResult result (λ pool. IsOpened roots.now pool) (λ fault. IsRootFault roots.now fault) }
    {
        if roots.len() > MOST_ROOTS {
            return Err(PoolFault::TooMany);
        }
        if let Some(i) = first_bad(roots) {
            return Err(PoolFault::BadRoot { index: i as u64 });
        }
        if let Some(clash) = first_root_clash(roots) {
            return Err(PoolFault::Overlap {
                first: clash.first as u64,
                second: clash.second as u64,
            });
        }
        let mut pool = Pool::empty(alloc)?;
        fill_roots(&mut pool.free, roots);
        Ok(pool)
    }

    /// A pool whose free addresses are those of the image's free prefixes, and whose doubtful prefixes are the image's.
    ///
    /// `TooMany` above 4,096 prefixes together; then `Overlap` for the least second prefix that overlaps an earlier one,
    /// with the least such first, counted through the free ones and then the doubtful ones; then `OutOfMemory`.
    pub fn reopen(alloc: Global, image: &PoolImage) -> Result<Pool, PoolFault>
        ensures pool { IfOk result (λ pool. IsPool pool) }
        ensures is { IfOk result (λ pool. pool ≡ pool_of_image image.now) }
        ensures reopened { MatchResult result (λ pool. IsReopened image.now pool) (λ fault. IsImageFault image.now fault) }
    {
        let free = image.free.slice();
        let doubtful = image.doubtful.slice();
        if free.len() > MOST_ENTRIES || doubtful.len() > MOST_ENTRIES - free.len() {
            return Err(PoolFault::TooMany);
        }
        if let Some(clash) = first_clash(&Listing::Image(image), free.len() + doubtful.len()) {
            return Err(PoolFault::Overlap {
                first: clash.first as u64,
                second: clash.second as u64,
            });
        }
        let mut pool = Pool::empty(alloc)?;
        fill(&mut pool.free, &Listing::Prefixes(free), free.len());
        insert_all(&mut pool.doubtful, doubtful);
        Ok(pool)
    }

    /// An empty pool, with all the memory that it will ever need.
    fn empty(alloc: Global) -> Result<Pool, PoolFault>
        ensures { MatchResult result (λ pool. pool ≡ record { free = []; reserved = []; doubtful = [] }) (λ fault. fault ≡ OutOfMemory) }
    {
        let Ok(free) = FreeList::open(alloc) else {
            return Err(PoolFault::OutOfMemory);
        };
        let Ok(reserved) = Vec::with_capacity(alloc, MOST_ENTRIES) else {
            return Err(PoolFault::OutOfMemory);
        };
        let Ok(doubtful) = Vec::with_capacity(alloc, MOST_ENTRIES) else {
            return Err(PoolFault::OutOfMemory);
        };
        Ok(Pool {
            free,
            reserved,
            doubtful,
        })
    }

    /// The maximal free prefix at this place, from 0 in rising order of address.
    pub fn free(&self, i: u64) -> Option<Prefix>
        ensures pool { IsPool self.now }
        ensures at { result ≡ slice_get self.now.free i }
    {
        self.free.entries().get(i as usize).copied()
    }

    /// The reserved prefix at this place, from 0 in rising order of address.
    pub fn reserved(&self, i: u64) -> Option<Prefix>
        ensures pool { IsPool self.now }
        ensures at { result ≡ slice_get self.now.reserved i }
    {
        self.reserved.get(i as usize).copied()
    }

    /// The doubtful prefix at this place, from 0 in rising order of address.
    pub fn doubtful(&self, i: u64) -> Option<Prefix>
        ensures pool { IsPool self.now }
        ensures at { result ≡ slice_get self.now.doubtful i }
    {
        self.doubtful.get(i as usize).copied()
    }

    /// How many entries may still be added, 0 to 4096.
    pub fn room(&self) -> u64
        ensures pool { IsPool self.now }
        ensures value { result ≡ room_of self.now }
    {
        let entries = self.free.entries().len() + self.reserved.len() + self.doubtful.len();
        (MOST_ENTRIES - entries) as u64
    }

    /// Whether the prefix is reserved, so that it can be confirmed, given back or doubted.
    pub fn is_reserved(&self, prefix: Prefix) -> bool
        ensures { IsTrue result ↔ Contains self.now.reserved prefix }
    {
        find_prefix(&self.reserved, prefix).is_some()
    }

    /// Whether the prefix is doubtful, so that it can be settled.
    pub fn is_doubtful(&self, prefix: Prefix) -> bool
        ensures { IsTrue result ↔ Contains self.now.doubtful prefix }
    {
        find_prefix(&self.doubtful, prefix).is_some()
    }

    /// Whether all addresses of the prefix are free, so that with a room of 128 it can be reserved.
    pub fn is_free(&self, prefix: Prefix) -> bool
        ensures { result ≡ is_some (around self.now.free prefix) }
    {
        self.free.around(prefix).is_some()
    }

    /// Reserves the prefix of this length with the least address whose addresses are all free.
    ///
    /// The length is 1 to 128. `None` where there is none, or the room is below 128.
    pub fn take(&mut self, length: u8) -> Option<Prefix>
        requires some { 1 ≤ length }
        requires most { length ≤ 128 }
        ensures pool { IsPool self.new }
        ensures reply { result ≡ take_reply self.old length }
        ensures after { self.new ≡ after_take self.old length result }
    {
        if self.room() < TAKE_ROOM {
            return None;
        }
        let Some(part) = self.free.carve(length) else {
            return None;
        };
        insert_prefix(&mut self.reserved, part);
        Some(part)
    }

    /// Reserves this prefix, and answers whether it did.
    ///
    /// `false` where one of its addresses isn't free, or the room is below 128: then the pool is as it was.
    pub fn take_at(&mut self, prefix: Prefix) -> bool
        ensures pool { IsPool self.new }
        ensures reply { result ≡ take_at_reply self.old prefix }
        ensures after { self.new ≡ after_take_at self.old prefix result }
    {
        // What is read of a prefix tells that it is one.
        let _address = prefix.address();
        if self.room() < TAKE_ROOM || !self.free.carve_at(prefix) {
            return false;
        }
        insert_prefix(&mut self.reserved, prefix);
        true
    }

    /// Makes a reserved prefix free.
    pub fn give_back(&mut self, prefix: Prefix)
        requires { Contains self.old.reserved prefix }
        ensures pool { IsPool self.new }
        ensures after { self.new ≡ after_back self.old prefix }
    {
        drop_prefix(&mut self.reserved, prefix);
        self.free.merge_in(prefix);
    }

    /// Forgets a reserved prefix.
    pub fn confirm(&mut self, prefix: Prefix)
        requires { Contains self.old.reserved prefix }
        ensures pool { IsPool self.new }
        ensures after { self.new ≡ after_confirm self.old prefix }
    {
        drop_prefix(&mut self.reserved, prefix);
    }

    /// Makes a reserved prefix doubtful.
    pub fn doubt(&mut self, prefix: Prefix)
        requires { Contains self.old.reserved prefix }
        ensures pool { IsPool self.new }
        ensures after { self.new ≡ after_doubt self.old prefix }
    {
        drop_prefix(&mut self.reserved, prefix);
        insert_prefix(&mut self.doubtful, prefix);
    }

    /// Makes a doubtful prefix free.
    pub fn settle(&mut self, prefix: Prefix)
        requires { Contains self.old.doubtful prefix }
        ensures pool { IsPool self.new }
        ensures after { self.new ≡ after_settle self.old prefix }
    {
        drop_prefix(&mut self.doubtful, prefix);
        self.free.merge_in(prefix);
    }

    /// The entry of least address that overlaps the prefix.
    fn first_kept(&self, prefix: Prefix) -> Option<Prefix>
        ensures pool { IsPool self.now }
        ensures valid { IsValid prefix }
        ensures first { IsAnswer (entries self.now) prefix result }
    {
        // What is read of a prefix tells that it is one.
        let _address = prefix.address();
        let free = first_overlap(self.free.entries(), prefix);
        let reserved = first_overlap(&self.reserved, prefix);
        let doubtful = first_overlap(&self.doubtful, prefix);
        lesser(lesser(free, reserved), doubtful)
    }

    /// Whether `gain` answers Ok: the prefix overlaps no entry, and there is room.
    pub fn can_gain(&self, prefix: Prefix) -> bool
        ensures { result ≡ can_gain self.now prefix }
    {
        self.room() > 0 && self.first_kept(prefix).is_none()
    }

    /// Makes a prefix free here that overlaps no entry.
    ///
    /// `Overlaps` where it overlaps an entry; then `Full` where the room is 0. After a fault the pool is as it was.
    pub fn gain(&mut self, prefix: Prefix) -> Result<(), GainFault>
        ensures pool { IsPool self.new }
        ensures answers { is_ok result ≡ can_gain self.old prefix }
        ensures refused { IfErr result (λ fault. IsRefused self.old prefix fault) }
        ensures after { self.new ≡ after_gaining self.old prefix }
    {
        if let Some(kept) = self.first_kept(prefix) {
            return Err(GainFault::Overlaps { kept });
        }
        if self.room() == 0 {
            return Err(GainFault::Full);
        }
        self.free.merge_in(prefix);
        Ok(())
    }
}
