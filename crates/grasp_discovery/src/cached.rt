//! The locators that are cached under one topic.

ghost use Rattle.std.specs.Prelude.{◌≡◌, ◌≤◌, ◌++◌, [], ◌∷◌, nat_lt, not, min, length, position, All, IfOk, IsSome, OnOk, OnErr};
ghost use Rattle.grasp_discovery.specs.Discoveries.{or_none, end_of, locators_of, live, least_left, keep_locator, keep_locators, put_locator};
ghost use Rattle.grasp_types.specs.Same.{same_locator};

use grasp_cbor::OutOfMemory;
use grasp_types::{Locator, Locators, Plain, reading_after};
use std::alloc::{AllocError, Global};
use std::marker::Model;

/// So many locators are cached under a topic at most.
const MOST_LOCATORS: usize = 8;

/// A lifetime of 0 counts as so many milliseconds.
const LONGEST: u64 = 600_000;

/// A locator, and the reading at which it ends.
#[derive(Clone, Debug, Drop)]
pub(crate) struct Cached {
    pub(crate) locator: Locator,
    pub(crate) end: u64,
}

impl Plain for Cached {
    ghost use Rattle.std.proofs.Common.{rules};

    ghost clones_are_same = { Prim.search rules };
}

impl Cached {
    /// Whether it is this locator.
    fn is(&self, locator: &Locator) -> bool
        ensures { result ≡ same_locator locator.now self.now.locator }
    {
        *locator == self.locator
    }
}

/// The locators that are cached under one topic, in the order in which they were first kept.
#[derive(Debug, Drop)]
pub(crate) struct CachedLocators {
    held: Vec<Cached>,
}

impl Model for CachedLocators {
    ghost use Rattle.std.specs.Prelude.{List};
    ghost use Rattle.grasp_discovery.specs.declared.cached.Cached.{Cached};

    ghost Value = { List Cached };

    ghost view = { λ a. a.held.items };
}

impl Clone for CachedLocators {
    ghost is_clone = { λ a b. b ≡ a };

    fn clone(&self) -> Result<CachedLocators, AllocError> {
        Ok(CachedLocators {
            held: self.held.clone()?,
        })
    }
}

impl Plain for CachedLocators {
    ghost clones_are_same = { λ a b e. e };
}

impl CachedLocators {
    /// None.
    pub(crate) fn new(alloc: Global) -> CachedLocators
        ensures { result ≡ [] }
    {
        CachedLocators {
            held: Vec::new(alloc),
        }
    }

    /// Whether there are none.
    pub(crate) fn is_empty(&self) -> bool
        ensures { result ≡ not (nat_lt 0 (length self.now)) }
    {
        self.held.is_empty()
    }

    /// All of the locators, or `None` where there are none.
    pub(crate) fn locators(&self) -> Result<Option<Locators>, OutOfMemory>
        ensures { IfOk result (λ r. r ≡ locators_of self.now) }
    {
        let alloc = *self.held.allocator();
        let mut locators = None;
        for cached in &self.held {
            locators = Some(with_one_more(alloc, locators, &cached.locator)?);
        }
        Ok(locators)
    }

    /// The locators that end after this reading, or `None` where there are none. Memory is wanted for these alone.
    pub(crate) fn live(&self, now: u64) -> Result<Option<Locators>, OutOfMemory>
        ensures ok { IfOk result (λ r. r ≡ locators_of (live now self.now)) }
        ensures wanted { OnErr result (IsSome (locators_of (live now self.now))) }
    {
        let alloc = *self.held.allocator();
        let mut locators = None;
        for cached in &self.held {
            if now < cached.end {
                locators = Some(with_one_more(alloc, locators, &cached.locator)?);
            }
        }
        Ok(locators)
    }

    /// The least remaining lifetime of those that end after this reading, or the greatest number where that is more.
    pub(crate) fn least_left(&self, now: u64) -> u32
        ensures least { result ≡ least_left now (live now self.now) }
        ensures some { 1 ≤ result }
    {
        let mut least = u32::MAX;
        for cached in &self.held {
            if now < cached.end {
                least = least_of(least, cached.end - now);
            }
        }
        least
    }

    /// Drops those that have ended by this reading.
    pub(crate) fn expire(&mut self, now: u64)
        ensures { self.new ≡ live now self.old }
    {
        self.held.retain(|cached| now < cached.end);
    }

    /// The least end of these, or this reading where none ends before it.
    pub(crate) fn earliest(&self, reading: u64) -> u64
        ensures reading { result ≤ reading }
        ensures each { All (λ one. result ≤ one.end) self.now }
    {
        let mut least = reading;
        for cached in &self.held {
            least = least.min(cached.end);
        }
        least
    }

    /// Keeps each of these with this end: to the later of the two ends, where it is there, and last, where fewer than 8
    /// are.
    pub(crate) fn keep_all(&mut self, end: u64, locators: &Locators) -> Result<(), OutOfMemory>
        ensures ok { OnOk result (self.new ≡ keep_locators end self.old locators.now) }
        ensures some { 1 ≤ length locators.now }
    {
        for locator in locators.slice() {
            self.keep(end, locator)?;
        }
        Ok(())
    }

    /// Keeps this one.
    fn keep(&mut self, end: u64, locator: &Locator) -> Result<(), OutOfMemory>
        ensures { OnOk result (self.new ≡ keep_locator end self.old locator.now) }
    {
        match self.position(locator) {
            Some(i) => {
                let cached = &mut self.held[i];
                cached.end = cached.end.max(end);
            }
            None => {
                if self.held.len() < MOST_LOCATORS {
                    let locator = locator.copy()?;
                    self.held.push(Cached { locator, end })?;
                }
            }
        }
        Ok(())
    }

    /// Where this locator is.
    fn position(&self, locator: &Locator) -> Option<usize>
        ensures { result ≡ position (λ cached. same_locator locator.now cached.locator) self.now }
    {
        self.held.iter().position(|cached| cached.is(locator))
    }
}

/// When locators of this lifetime end.
pub(crate) fn end_of(now: u64, ttl: u32) -> u64
    ensures { result ≡ end_of now ttl }
{
    if ttl == 0 {
        reading_after(now, LONGEST)
    } else {
        reading_after(now, u64::from(ttl))
    }
}

/// These locators and one more, or this one alone.
fn with_one_more(
    alloc: Global,
    before: Option<Locators>,
    next: &Locator,
) -> Result<Locators, OutOfMemory>
    ensures { IfOk result (λ r. r ≡ or_none before ++ next.now ∷ []) }
{
    let next = next.copy()?;
    match before {
        Some(mut locators) => {
            locators.push(next)?;
            Ok(locators)
        }
        None => Ok(Locators::of(alloc, next)?),
    }
}

/// The lesser of the two.
fn least_of(least: u32, left: u64) -> u32
    ensures least { result ≡ min least left }
    ensures some { 1 ≤ least → 1 ≤ left → 1 ≤ result }
{
    if u64::from(least) <= left {
        least
    } else {
        left as u32
    }
}
