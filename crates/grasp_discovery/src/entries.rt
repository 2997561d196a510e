//! The cache: locators under topics.

ghost use Rattle.std.specs.Prelude.{◌≡◌, ◌≤◌, true, map, option_map, length, All, IfOk, OnOk, OnErr};
ghost use Rattle.std.specs.Map.{lookup};
ghost use Rattle.grasp_discovery.specs.Discoveries.{locators_of, cached_under, has_topic, has_place, keep_locators, after_response, live_entry, IsCache};
ghost use Rattle.grasp_discovery.specs.Topic.{same_topic, topic_of};

use crate::cached::CachedLocators;
use crate::topic::Topic;
use grasp_cbor::{Chars, OutOfMemory};
use grasp_types::{Kind, Locators, Plain};
use indexmap::IndexMap;

/// At most so many entries are cached.
pub(crate) const MOST_ENTRIES: usize = 128;

/// The cached locators under each topic, in the order in which the topics were first kept.
pub(crate) type Entries = IndexMap<Topic, CachedLocators>;

/// The entry of this name and use.
pub(crate) fn entry_of<'a>(
    entries: &'a Entries,
    name: &Chars,
    kind: Kind,
) -> Option<&'a CachedLocators>
    ensures { option_map (λ cached. cached.now) result ≡ lookup (same_topic (topic_of name.now kind)) entries.now.entries }
{
    for i in 0..entries.len() {
        let Some((topic, cached)) = entries.get_index(i) else {
            unreachable!()
        };
        if topic.is(name, kind) {
            return Some(cached);
        }
    }
    None
}

/// All locators of this name and use, or `None` where there are none.
pub(crate) fn locators_of(
    entries: &Entries,
    name: &Chars,
    kind: Kind,
) -> Result<Option<Locators>, OutOfMemory>
    ensures ok { IfOk result (λ locators. locators ≡ locators_of (cached_under (topic_of name.now kind) entries.now.entries)) }
    ensures wanted { OnErr result (has_topic (topic_of name.now kind) entries.now.entries ≡ true) }
{
    match entry_of(entries, name, kind) {
        Some(cached) => cached.locators(),
        None => Ok(None),
    }
}

/// Keeps these locators under this topic, where it has a place.
pub(crate) fn keep_response(
    entries: &mut Entries,
    topic: Topic,
    end: u64,
    locators: &Locators,
) -> Result<(), OutOfMemory>
    ensures ok { OnOk result (entries.new.entries ≡ after_response entries.old.entries topic end locators.now) }
    ensures err { OnErr result (entries.new.entries ≡ entries.old.entries) }
    ensures sound { OnOk result (IsCache entries.old.entries → IsCache entries.new.entries) }
{
    if !has_place(entries, &topic) {
        return Ok(());
    }
    let cached = with_response(entries, &topic, end, locators)?;
    entries.insert(topic, cached)?;
    Ok(())
}

/// Whether it is there, or fewer than 128 are.
fn has_place(entries: &Entries, topic: &Topic) -> bool
    ensures { result ≡ has_place topic.now entries.now.entries }
{
    entries.contains_key(topic) || entries.len() < MOST_ENTRIES
}

/// What is cached under this topic, and then these locators.
fn with_response(
    entries: &Entries,
    topic: &Topic,
    end: u64,
    locators: &Locators,
) -> Result<CachedLocators, OutOfMemory>
    ensures ok { IfOk result (λ cached. cached ≡ keep_locators end (cached_under topic.now entries.now.entries) locators.now) }
    ensures some { OnOk result (1 ≤ length locators.now) }
{
    let mut cached = copy_of(entries, topic)?;
    cached.keep_all(end, locators)?;
    Ok(cached)
}

/// Another of what is cached under this topic.
fn copy_of(entries: &Entries, topic: &Topic) -> Result<CachedLocators, OutOfMemory>
    ensures { IfOk result (λ cached. cached ≡ cached_under topic.now entries.now.entries) }
{
    match entries.get(topic) {
        Some(cached) => cached.copy(),
        None => Ok(CachedLocators::new(*entries.allocator())),
    }
}

/// Drops the locators of each entry that have ended by this reading.
pub(crate) fn expire_all(entries: &mut Entries, now: u64)
    ensures { entries.new.entries ≡ map (live_entry now) entries.old.entries }
{
    for i in 0..entries.len() {
        let (_topic, cached) = entries.pair_mut(i);
        cached.expire(now);
    }
}

/// The least end of all these locators, or the greatest reading where there is none.
pub(crate) fn earliest_cached(entries: &Entries) -> u64
    ensures { All (λ entry. All (λ one. result ≤ one.end) entry.1) entries.now.entries }
{
    let mut least = u64::MAX;
    for i in 0..entries.len() {
        let Some((_topic, cached)) = entries.get_index(i) else {
            unreachable!()
        };
        least = cached.earliest(least);
    }
    least
}
