//! Searches.

ghost use Rattle.std.specs.Prelude.{◌≡◌, ◌≤◌, false, map, All, option_map};
ghost use Rattle.grasp_discovery.specs.Discoveries.{is_search_of, after_reading, find_reply};
ghost use Rattle.grasp_discovery.specs.Topic.{topic_of};

use crate::answers::Find;
use crate::topic::Topic;
use grasp_cbor::Chars;
use grasp_types::{Kind, Locators};

/// An agent's search.
#[derive(Debug, Drop)]
pub(crate) struct Search {
    /// The number of that agent.
    pub(crate) asa: u32,
    pub(crate) topic: Topic,
    /// The session number of the discovery that was sent for it.
    pub(crate) session: u32,
    /// The reading at which it is over.
    pub(crate) end: u64,
    /// Whether it is over.
    pub(crate) over: bool,
}

impl Search {
    /// Whether this agent searches for this name and use.
    pub(crate) fn is_of(&self, asa: u32, name: &Chars, kind: Kind) -> bool
        ensures { result ≡ is_search_of asa (topic_of name.now kind) self.now }
    {
        self.asa == asa && self.topic.is(name, kind)
    }

    /// The lesser of a reading and its end, where it isn't over.
    fn earlier(&self, reading: u64) -> u64
        ensures reading { result ≤ reading }
        ensures end { self.now.over ≡ false → result ≤ self.now.end }
    {
        if self.over {
            reading
        } else {
            reading.min(self.end)
        }
    }

    /// Marks it as over, where its reading has come.
    fn mark(&mut self, now: u64)
        ensures { self.new ≡ after_reading now self.old }
    {
        self.over = self.over || self.end <= now;
    }
}

/// Marks each search whose reading has come as over.
pub(crate) fn mark_over(searches: &mut [Search], now: u64)
    ensures { searches.new ≡ map (after_reading now) searches.old }
{
    for search in searches.iter_mut() {
        search.mark(now);
    }
}

/// How a search stands.
pub(crate) fn find_reply(locators: Option<Locators>, search: Option<&Search>) -> Find
    ensures { result ≡ find_reply locators (option_map (λ search. search.now) search.entry) }
{
    match (locators, search) {
        (Some(locators), _) => Find::Found(locators),
        (None, Some(search)) => {
            if search.over {
                Find::Nothing
            } else {
                Find::NotYet
            }
        }
        (None, None) => Find::Fresh,
    }
}

/// The least end of those that aren't over, or the greatest reading where there is none.
pub(crate) fn earliest_search(searches: &[Search]) -> u64
    ensures { All (λ search. search.over ≡ false → result ≤ search.end) searches.now }
{
    let mut least = u64::MAX;
    for search in searches {
        least = search.earlier(least);
    }
    least
}
