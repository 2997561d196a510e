//! An image that is kept.

ghost use Rattle.std.specs.Prelude.{◌≡◌, [], ◌++◌, ◌≤◌, ◌<◌, ◌+◌, ◌*◌, Contains, IfOk, length, drop, vec_len, vec_capacity};
ghost use Rattle.grasp_types.specs.Prefix.{AddressBlock};
ghost use Rattle.grasp_pool.specs.Canonical.{IsRising};
ghost use Rattle.grasp_pool.specs.Functions.{add, each};
ghost use Rattle.grasp_pool.specs.Pools.{IsPool};
ghost use Rattle.grasp_store.specs.Images.{IsGoodImage, image_of, with_doubt, is_same_image};
ghost use Rattle.grasp_store.specs.Reading.{EntriesValid};
ghost use Rattle.grasp_store.specs.Slots.{all_prefix_bytes, body_of, body_size, prefixes_in, saved_in};

use crate::slot::{MOST_ENTRIES, doubtful_count, entry, free_count};
use grasp_cbor::OutOfMemory;
use grasp_pool::{Pool, PoolImage, PrefixList, insert_prefix};
use grasp_types::Prefix;
use std::alloc::Global;
use std::marker::Model;

/// An image with memory for 4,096 prefixes of each kind. After it is made, it takes no more.
#[derive(Drop)]
pub(crate) struct KeptImage {
    free: Vec<Prefix>,
    doubtful: Vec<Prefix>,
}

impl Model for KeptImage {
    ghost use Rattle.std.specs.Prelude.{◌≤◌, vec_capacity};
    ghost use Rattle.grasp_pool.specs.declared.image.PoolImage.{PoolImage};

    ghost Value = { PoolImage };

    ghost view = { λ a. record { free = a.free.items; doubtful = a.doubtful.items } };

    ghost invariant = { λ a. (4096 ≤ vec_capacity a.free) × (4096 ≤ vec_capacity a.doubtful) };
}

impl KeptImage {
    /// An image without prefixes.
    pub(crate) fn new(alloc: Global) -> Result<KeptImage, OutOfMemory>
        ensures { IfOk result (λ image. image ≡ record { free = []; doubtful = [] }) }
    {
        Ok(KeptImage {
            free: Vec::with_capacity(alloc, MOST_ENTRIES)?,
            doubtful: Vec::with_capacity(alloc, MOST_ENTRIES)?,
        })
    }

    /// Makes it the image of a pool.
    pub(crate) fn copy_pool(&mut self, pool: &Pool)
        requires { IsPool pool.now }
        ensures { self.new ≡ image_of pool.now }
    {
        copy_free(&mut self.free, pool);
        copy_doubtful(&mut self.doubtful, pool);
        add_reserved(&mut self.doubtful, pool);
    }

    /// Puts a prefix in doubt besides.
    pub(crate) fn add_doubt(&mut self, prefix: Prefix)
        requires rising { IsRising self.old.doubtful }
        requires room { length self.old.doubtful < 4096 }
        requires is_new { (q : AddressBlock) → Contains self.old.doubtful q → ¬ (q.address ≡ prefix.address) }
        ensures { self.new ≡ with_doubt prefix self.old }
    {
        insert_prefix(&mut self.doubtful, prefix);
    }

    /// Makes it the image that the body of a slot holds.
    pub(crate) fn read(&mut self, bytes: &[u8])
        requires size { length bytes.now ≡ body_size }
        requires good { IsGoodImage (saved_in bytes.now).image }
        ensures { self.new ≡ (saved_in bytes.now).image }
    {
        let count = free_count(bytes);
        read_entries(&mut self.free, bytes, 0, count);
        read_entries(&mut self.doubtful, bytes, count, doubtful_count(bytes));
    }

    /// Whether the two have the same prefixes in the same order.
    pub(crate) fn is_same(&self, other: &KeptImage) -> bool
        ensures { result ≡ is_same_image self.now other.now }
    {
        self.free == other.free && self.doubtful == other.doubtful
    }

    /// Writes what a slot with this number holds behind its gate.
    pub(crate) fn write(&self, number: u64, body: &mut Vec<u8>)
        requires few { length self.now.free + length self.now.doubtful ≤ 4096 }
        requires room { body_size ≤ vec_capacity body.old }
        ensures is { body.new.items ≡ body_of (record { number = number; image = self.now }) }
        ensures capacity { body_size ≤ vec_capacity body.new }
    {
        body.clear();
        push(body, &number.to_be_bytes());
        push(body, &(self.free.len() as u16).to_be_bytes());
        push(body, &(self.doubtful.len() as u16).to_be_bytes());
        push_prefixes(body, &self.free);
        push_prefixes(body, &self.doubtful);
    }

    /// A copy of it.
    pub(crate) fn copy(&self, alloc: Global) -> Result<PoolImage, OutOfMemory>
        ensures { IfOk result (λ image. image ≡ self.now) }
    {
        Ok(PoolImage {
            free: list_of(alloc, &self.free)?,
            doubtful: list_of(alloc, &self.doubtful)?,
        })
    }
}

/// Makes the list that of a pool's free prefixes.
fn copy_free(list: &mut Vec<Prefix>, pool: &Pool)
    requires pool { IsPool pool.now }
    requires memory { 4096 ≤ vec_capacity list.old }
    ensures is { list.new.items ≡ pool.now.free }
    ensures capacity { 4096 ≤ vec_capacity list.new }
{
    list.clear();
    for i in 0..MOST_ENTRIES {
        let Some(prefix) = pool.free(i as u64) else {
            return;
        };
        let Ok(()) = list.push(prefix) else {
            unreachable!()
        };
    }
}

/// Makes the list that of a pool's doubtful prefixes.
fn copy_doubtful(list: &mut Vec<Prefix>, pool: &Pool)
    requires pool { IsPool pool.now }
    requires memory { 4096 ≤ vec_capacity list.old }
    ensures is { list.new.items ≡ pool.now.doubtful }
    ensures capacity { 4096 ≤ vec_capacity list.new }
{
    list.clear();
    for i in 0..MOST_ENTRIES {
        let Some(prefix) = pool.doubtful(i as u64) else {
            return;
        };
        let Ok(()) = list.push(prefix) else {
            unreachable!()
        };
    }
}

/// Puts a pool's reserved prefixes into the list of its doubtful ones.
fn add_reserved(list: &mut Vec<Prefix>, pool: &Pool)
    requires pool { IsPool pool.now }
    requires memory { 4096 ≤ vec_capacity list.old }
    requires is_doubtful { list.old.items ≡ pool.now.doubtful }
    ensures is { list.new.items ≡ each add pool.now.reserved pool.now.doubtful }
    ensures capacity { 4096 ≤ vec_capacity list.new }
{
    for i in 0..MOST_ENTRIES {
        let Some(prefix) = pool.reserved(i as u64) else {
            return;
        };
        insert_prefix(list, prefix);
    }
}

/// Makes the list that of so many entries of a slot from a place on.
fn read_entries(list: &mut Vec<Prefix>, bytes: &[u8], from: usize, count: usize)
    requires memory { 4096 ≤ vec_capacity list.old }
    requires few { from + count ≤ 4096 }
    requires within { 12 + 17 * (from + count) ≤ length bytes.now }
    requires valid { EntriesValid bytes.now from count }
    ensures is { list.new.items ≡ prefixes_in count (drop (12 + 17 * from) bytes.now) }
    ensures capacity { 4096 ≤ vec_capacity list.new }
{
    list.clear();
    for i in 0..count {
        let Some(prefix) = entry(bytes, from + i) else {
            unreachable!()
        };
        let Ok(()) = list.push(prefix) else {
            unreachable!()
        };
    }
}

/// Writes bytes behind the others, for which there is room.
fn push(body: &mut Vec<u8>, bytes: &[u8])
    requires { vec_len body.old + length bytes.now ≤ vec_capacity body.old }
    ensures is { body.new.items ≡ body.old.items ++ bytes.now }
    ensures capacity { vec_capacity body.old ≤ vec_capacity body.new }
{
    let Ok(()) = body.extend_from_slice(bytes) else {
        unreachable!()
    };
}

/// Writes prefixes behind the other bytes.
fn push_prefixes(body: &mut Vec<u8>, prefixes: &[Prefix])
    requires { vec_len body.old + 17 * length prefixes.now ≤ vec_capacity body.old }
    ensures is { body.new.items ≡ body.old.items ++ all_prefix_bytes prefixes.now }
    ensures capacity { vec_capacity body.old ≤ vec_capacity body.new }
{
    for prefix in prefixes {
        push(body, &[prefix.length()]);
        push(body, &prefix.address().to_be_bytes());
    }
}

/// A list of these prefixes.
fn list_of(alloc: Global, prefixes: &[Prefix]) -> Result<PrefixList, OutOfMemory>
    ensures { IfOk result (λ list. list ≡ prefixes.now) }
{
    let mut list = PrefixList::new(alloc);
    for prefix in prefixes {
        list.push(*prefix)?;
    }
    Ok(list)
}
