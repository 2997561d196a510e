//! The cache of floods.

ghost use Rattle.std.specs.Prelude.{◌≡◌, ◌+◌, ◌≤◌, ◌<◌, length, map, fold, All, Any, IfSome, IfOk, OnErr};
ghost use Rattle.indexmap.specs.IndexMap.{spare};
ghost use Rattle.grasp_types.specs.Origin.{origin_of};
ghost use Rattle.grasp_flood.specs.Flood.{key_of};
ghost use Rattle.grasp_flood.specs.declared.heard.Heard.TheVariants.{New};
ghost use Rattle.grasp_flood.specs.Floods.{no_floods, has_key, entry_of, after_keep, after_renewal, heard_reply, after_heard, remembers, reads_of};
ghost use Rattle.grasp_flood.specs.Floods.{after_drop, after_expiry, IsFloods};

use crate::kept::{earlier, end_of, entry_of, read_of};
use crate::{FloodKept, FloodKey, Heard};
use grasp_cbor::{Chars, OutOfMemory};
use grasp_types::{Address, FloodParts, FloodReads, Origin, reading_after};
use indexmap::IndexMap;
use std::alloc::Global;
use std::marker::Model;

/// At most so many entries are kept.
const MOST_ENTRIES: usize = 128;

/// At most so many floods are remembered.
const MOST_MEMORIES: usize = 256;

/// A flood is remembered for so many milliseconds.
const MEMORY: u64 = 120_000;

type Entries = IndexMap<FloodKey, FloodKept>;

type Memories = IndexMap<Origin, u64>;

/// What floods told, and which floods are remembered.
#[derive(Drop)]
pub struct FloodCache {
    entries: Entries,
    memories: Memories,
    // nothing here ends before this reading
    earliest: u64,
}

impl Model for FloodCache {
    ghost use Rattle.std.specs.Coded.{codes};
    ghost use Rattle.std.specs.Prelude.{◌≤◌, All, IfSome};
    ghost use Rattle.grasp_flood.specs.contracts.kept.FloodKept as kept;
    ghost use Rattle.grasp_types.specs.contracts.origin.Origin as origin;
    ghost use Rattle.grasp_flood.specs.contracts.keys.FloodKey as key;
    ghost use Rattle.grasp_flood.specs.Floods.{Floods, IsFloods};

    ghost Value = { Floods };

    ghost coded = { Prim.hlevel (codes, key.the_row.coded, kept.the_row.coded, origin.the_row.coded) };

    ghost view = { λ a. record { entries = a.entries.entries; memories = a.memories.entries } };

    ghost invariant = { λ a. IsFloods (record { entries = a.entries.entries; memories = a.memories.entries })
        × All (λ entry. IfSome entry.1.end (λ last. a.earliest ≤ last)) a.entries.entries
        × All (λ memory. a.earliest ≤ memory.1) a.memories.entries };
}

impl FloodCache {
    /// An empty cache, with memory for 128 entries and 256 memories.
    pub fn new(alloc: Global) -> Result<FloodCache, OutOfMemory>
        ensures empty { IfOk result (λ cache. cache ≡ no_floods) }
        ensures sound { IfOk result IsFloods }
    {
        Ok(FloodCache {
            entries: IndexMap::with_capacity(alloc, MOST_ENTRIES)?,
            memories: IndexMap::with_capacity(alloc, MOST_MEMORIES)?,
            earliest: u64::MAX,
        })
    }

    /// Hears a flood of another node at this reading: its session number, its initiator, the lifetime of what it
    /// tells, where 0 never ends, and its parts (RFC 8990, section 2.8.11).
    ///
    /// A flood that is remembered renews what it told, to the later of the two ends. A new one is remembered for
    /// 120000 ms, and each of its parts takes the place of what was kept of its name and initiator, or comes last where
    /// fewer than 128 entries are kept. Only a new flood takes memory. After an `Err` the cache is as before.
    pub fn heard(
        &mut self,
        now: u64,
        session: u32,
        initiator: Address,
        ttl: u32,
        parts: &FloodParts,
    ) -> Result<Heard, OutOfMemory>
        ensures reply { IfOk result (λ heard. heard ≡ heard_reply self.old (origin_of session initiator)) }
        ensures after { IfOk result (λ heard. self.new ≡ after_heard self.old now (origin_of session initiator) ttl parts.now heard) }
        ensures err { OnErr result (self.new ≡ self.old) }
        ensures wanted { OnErr result (heard_reply self.old (origin_of session initiator) ≡ New) }
        ensures sound { IsFloods self.new }
    {
        let flood = Origin { session, initiator };
        let end = end_of(now, ttl);
        if self.memories.contains_key(&flood) {
            renew_all(&mut self.entries, flood, end);
            return Ok(Heard::Known);
        }
        if self.memories.len() >= MOST_MEMORIES {
            return Ok(Heard::NoPlace);
        }
        let told = entries_of(*self.entries.allocator(), flood, end, parts)?;
        self.entries.reserve(told.len())?;
        let memory = reading_after(now, MEMORY);
        self.memories.insert(flood, memory)?;
        keep_all(&mut self.entries, told);
        self.earliest = earlier(self.earliest.min(memory), end);
        Ok(Heard::New)
    }

    /// Whether a flood of this session number and initiator is remembered. It takes no memory.
    pub fn remembers(&self, session: u32, initiator: Address) -> bool
        ensures { result ≡ remembers self.now (origin_of session initiator) }
    {
        self.memories.contains_key(&Origin { session, initiator })
    }

    /// What is kept of this name, in the order in which the keys were first kept. Memory is wanted for such entries alone.
    pub fn get(&self, name: &Chars) -> Result<FloodReads, OutOfMemory>
        ensures reads { IfOk result (λ reads. reads ≡ reads_of self.now name.now) }
        ensures wanted { OnErr result (Any (λ entry. entry.0.name ≡ name.now) self.now.entries) }
        ensures sound { IsFloods self.now }
    {
        let alloc = *self.entries.allocator();
        let mut reads = FloodReads::new(alloc);
        for i in 0..self.entries.len() {
            let Some((key, kept)) = self.entries.get_index(i) else {
                unreachable!()
            };
            if key.name == *name {
                reads.push(read_of(key, kept)?)?;
            }
        }
        Ok(reads)
    }

    /// Drops what is kept under this name and initiator, and says whether there was anything. It takes no memory.
    pub fn drop_one(&mut self, name: &Chars, initiator: Address) -> bool
        ensures there { result ≡ has_key (key_of name.now initiator) self.old.entries }
        ensures after { self.new ≡ after_drop self.old (key_of name.now initiator) }
        ensures sound { IsFloods self.new }
    {
        let before = self.entries.len();
        self.entries.retain(|key, _kept| !key.is(name, initiator));
        self.entries.len() < before
    }

    /// Drops what has ended by this reading, and forgets the floods whose memory has. It takes no memory.
    pub fn expire(&mut self, now: u64)
        ensures after { self.new ≡ after_expiry self.old now }
        ensures sound { IsFloods self.new }
    {
        if now < self.earliest {
            return;
        }
        self.entries.retain(|_key, kept| kept.is_after(now));
        self.memories.retain(|_flood, end| now < *end);
        self.earliest = earliest_kept(&self.entries).min(earliest_remembered(&self.memories));
    }
}

/// What is kept of these parts of a flood, with their keys.
fn entries_of(
    alloc: Global,
    flood: Origin,
    end: Option<u64>,
    parts: &FloodParts,
) -> Result<Vec<(FloodKey, FloodKept)>, OutOfMemory>
    ensures { IfOk result (λ told. told.items ≡ map (entry_of flood end) parts.now) }
{
    let mut told = Vec::new(alloc);
    for part in parts.slice() {
        told.push(entry_of(flood, end, part)?)?;
    }
    Ok(told)
}

/// Keeps each of these in its order. There is room for all.
fn keep_all(entries: &mut Entries, told: Vec<(FloodKey, FloodKept)>)
    requires { length told.items ≤ spare entries.old }
    ensures { entries.new.entries ≡ fold after_keep entries.old.entries told.items }
{
    for (key, kept) in told {
        keep(entries, key, kept);
    }
}

/// Keeps this, where something is kept under its key or fewer than 128 entries are. There is room for one more.
#[tactic(auto, using(grasp_cbor::proofs::Facts::Lists::is_some_lookup, crate::proofs::Entries::insert_entry_put))]
fn keep(entries: &mut Entries, key: FloodKey, kept: FloodKept)
    requires { 0 < spare entries.old }
    ensures after { entries.new.entries ≡ after_keep entries.old.entries (key, kept) }
    ensures room { spare entries.old ≤ spare entries.new + 1 }
{
    if entries.contains_key(&key) || entries.len() < MOST_ENTRIES {
        let Ok(_) = entries.insert(key, kept) else {
            unreachable!()
        };
    }
}

/// The least end of these entries, or the greatest reading where none has an end.
fn earliest_kept(entries: &Entries) -> u64
    ensures { All (λ entry. IfSome entry.1.end (λ last. result ≤ last)) entries.now.entries }
{
    let mut least = u64::MAX;
    for i in 0..entries.len() {
        let Some((_key, kept)) = entries.get_index(i) else {
            unreachable!()
        };
        least = earlier(least, kept.end);
    }
    least
}

/// The least end of these memories, or the greatest reading where there is none.
fn earliest_remembered(memories: &Memories) -> u64
    ensures { All (λ memory. result ≤ memory.1) memories.now.entries }
{
    let mut least = u64::MAX;
    for i in 0..memories.len() {
        let Some((_flood, end)) = memories.get_index(i) else {
            unreachable!()
        };
        least = least.min(*end);
    }
    least
}

/// Renews what this flood made.
fn renew_all(entries: &mut Entries, flood: Origin, end: Option<u64>)
    ensures { entries.new.entries ≡ map (after_renewal flood end) entries.old.entries }
{
    for i in 0..entries.len() {
        let (key, kept) = entries.pair_mut(i);
        kept.renew(key, flood, end);
    }
}
