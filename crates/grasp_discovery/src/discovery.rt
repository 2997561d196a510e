//! Searches, the cache and memories, and what responses do to them.

ghost use Rattle.std.specs.Prelude.{◌≡◌, ◌≤◌, true, false, find, option_map, IsSome, IfSome, IfOk, OnOk, OnErr};
ghost use Rattle.grasp_types.specs.Origin.{origin_of};
ghost use Rattle.grasp_discovery.specs.declared.answers.Find.TheVariants.{Fresh};
ghost use Rattle.grasp_discovery.specs.declared.answers.Heard.TheVariants.{New};
ghost use Rattle.grasp_discovery.specs.Discoveries.{no_discoveries, is_search_of, is_numbered, is_searching, is_full, is_used, without_asa};
ghost use Rattle.grasp_discovery.specs.Discoveries.{search_from, with_search, has_topic, known_of, find_answer, after_find, heard_reply, memory_from};
ghost use Rattle.grasp_discovery.specs.Discoveries.{after_heard, remembers, own_search, asker_of, answered_reply, end_of, after_answered};
ghost use Rattle.grasp_discovery.specs.Discoveries.{after_expiry, IsDiscoveries};
ghost use Rattle.grasp_discovery.specs.Topic.{topic_of};

use crate::answers::{Answered, BeginRefused, Cause, Find, Heard};
use crate::cached::end_of;
use crate::entries::{
    Entries, MOST_ENTRIES, earliest_cached, entry_of, expire_all, keep_response, locators_of,
};
use crate::memory::{Memories, earliest_remembered, memory_from};
use crate::search::{Search, earliest_search, find_reply, mark_over};
use crate::topic::Topic;
use grasp_cbor::{Chars, OutOfMemory};
use grasp_types::{Address, Kind, Locators, Objective, Origin, Plain, reading_after};
use indexmap::IndexMap;
use std::alloc::Global;
use std::marker::Model;

/// At most so many searches are kept.
const MOST_SEARCHES: usize = 64;

/// At most so many discoveries are remembered.
const MOST_MEMORIES: usize = 256;

/// The searches of a node, the locators that responses told it, and the discoveries that it remembers.
///
/// It holds at most 64 searches, 128 entries of 8 locators, and 256 memories.
#[derive(Drop)]
pub struct Discovery {
    searches: Vec<Search>,
    entries: Entries,
    memories: Memories,
    // nothing here ends before this reading
    earliest: u64,
}

impl Model for Discovery {
    ghost use Rattle.std.specs.Coded.{codes};
    ghost use Rattle.std.specs.Prelude.{◌≡◌, ◌≤◌, false, All};
    ghost use Rattle.grasp_types.specs.contracts.origin.Origin as origin;
    ghost use Rattle.grasp_discovery.specs.contracts.cached.Cached as cached;
    ghost use Rattle.grasp_discovery.specs.contracts.memory.Memory as memory;
    ghost use Rattle.grasp_discovery.specs.contracts.search.Search as search;
    ghost use Rattle.grasp_discovery.specs.contracts.topic.Topic as topic;
    ghost use Rattle.grasp_discovery.specs.Discoveries.{Discoveries};
    ghost use Rattle.grasp_discovery.specs.Room.{discoveries_of, HasRoom};

    ghost Value = { Discoveries };

    ghost coded = { Prim.hlevel (codes, search.the_row.coded, topic.the_row.coded, cached.the_row.coded, origin.the_row.coded, memory.the_row.coded) };

    ghost view = { discoveries_of };

    ghost invariant = { λ a. HasRoom a
        × All (λ search. search.over ≡ false → a.earliest ≤ search.end) a.searches.items
        × All (λ entry. All (λ one. a.earliest ≤ one.end) entry.1) a.entries.entries
        × All (λ memory. a.earliest ≤ memory.1.end) a.memories.entries };
}

impl Discovery {
    /// Nothing yet, with memory for 64 searches, 128 entries and 256 memories.
    pub fn new(alloc: Global) -> Result<Discovery, OutOfMemory>
        ensures empty { IfOk result (λ all. all ≡ no_discoveries) }
        ensures sound { IfOk result IsDiscoveries }
    {
        Ok(Discovery {
            searches: Vec::with_capacity(alloc, MOST_SEARCHES)?,
            entries: IndexMap::with_capacity(alloc, MOST_ENTRIES)?,
            memories: IndexMap::with_capacity(alloc, MOST_MEMORIES)?,
            earliest: u64::MAX,
        })
    }

    /// Answers an agent that looks for an objective of this name and use: the cached locators, or how its search stands
    /// (RFC 8991, section 2.3.4).
    ///
    /// `Found` and `Nothing` end the agent's search for it. Memory is wanted for cached locators alone. After an `Err`
    /// nothing has changed.
    pub fn find(&mut self, asa: u32, name: &Chars, kind: Kind) -> Result<Find, OutOfMemory>
        ensures answer { IfOk result (λ answer. answer ≡ find_answer self.old asa (topic_of name.now kind)) }
        ensures after { IfOk result (λ answer. self.new ≡ after_find self.old asa (topic_of name.now kind) answer) }
        ensures fresh { IfOk result (λ answer. answer ≡ Fresh → is_searching self.new asa (topic_of name.now kind) ≡ false) }
        ensures err { OnErr result (self.new ≡ self.old) }
        ensures wanted { OnErr result (has_topic (topic_of name.now kind) self.old.entries ≡ true) }
        ensures sound { IsDiscoveries self.new }
    {
        let locators = locators_of(&self.entries, name, kind)?;
        let answer = find_reply(locators, self.search_of(asa, name, kind));
        self.end_search(asa, name, kind, &answer);
        Ok(answer)
    }

    /// Begins this agent's search for an objective of this name and use, by a discovery of this session number. It is
    /// over at the reading plus the timeout. It takes no memory. After an `Err` nothing has changed.
    pub fn begin(
        &mut self,
        now: u64,
        asa: u32,
        name: Chars,
        kind: Kind,
        session: u32,
        timeout: u32,
    ) -> Result<(), BeginRefused>
        requires { is_searching self.old asa (topic_of name kind) ≡ false }
        ensures refused { OnErr result (is_full self.old ≡ true) }
        ensures room { OnOk result (is_full self.old ≡ false) }
        ensures after { OnOk result (self.new ≡ with_search self.old (search_from now asa (topic_of name kind) session timeout)) }
        ensures err { OnErr result (self.new ≡ self.old) }
        ensures sound { IsDiscoveries self.new }
    {
        if self.full() {
            return Err(BeginRefused::SessionsFull);
        }
        let end = reading_after(now, u64::from(timeout));
        let search = Search {
            asa,
            topic: Topic { name, kind },
            session,
            end,
            over: false,
        };
        self.earliest = self.earliest.min(end);
        let Ok(()) = self.searches.push(search) else {
            unreachable!()
        };
        Ok(())
    }

    /// Hears a discovery of another node that this neighbour sent: its session number, its initiator and its objective,
    /// whose flags have F_NEG or F_SYNCH (RFC 8990, section 2.5.4.4).
    ///
    /// A new one is remembered for 60000 ms, as a discovery for negotiation where F_NEG is set. Only a new one takes
    /// memory. After an `Err` nothing has changed.
    pub fn heard(
        &mut self,
        now: u64,
        cause: Cause,
        session: u32,
        initiator: Address,
        objective: &Objective,
    ) -> Result<Heard, OutOfMemory>
        ensures reply { IfOk result (λ heard. heard ≡ heard_reply self.old (origin_of session initiator)) }
        ensures after { IfOk result (λ heard. self.new ≡ after_heard self.old (origin_of session initiator) (memory_from now cause objective.now) heard) }
        ensures err { OnErr result (self.new ≡ self.old) }
        ensures wanted { OnErr result (heard_reply self.old (origin_of session initiator) ≡ New) }
        ensures sound { IsDiscoveries self.new }
    {
        let origin = Origin { session, initiator };
        if self.memories.contains_key(&origin) {
            return Ok(Heard::Known);
        }
        if self.memories.len() >= MOST_MEMORIES {
            return Ok(Heard::NoPlace);
        }
        let memory = memory_from(now, cause, objective)?;
        let end = memory.end;
        self.memories.insert(origin, memory)?;
        self.earliest = self.earliest.min(end);
        Ok(Heard::New)
    }

    /// Whether a discovery of this session number and initiator is remembered. It takes no memory.
    pub fn remembers(&self, session: u32, initiator: Address) -> bool
        ensures { result ≡ remembers self.now (origin_of session initiator) }
    {
        self.memories.contains_key(&Origin { session, initiator })
    }

    /// Who asked for a response of this session number and initiator, at the node of this address. It takes no memory.
    pub fn asker(&self, own: Address, session: u32, initiator: Address) -> Answered
        ensures { result ≡ answered_reply (asker_of self.now own (origin_of session initiator)) }
    {
        let origin = Origin { session, initiator };
        match (self.own_search(own, origin), self.memories.get(&origin)) {
            (Some(_), _) => Answered::Mine,
            (None, Some(memory)) => Answered::Relay(memory.cause),
            (None, None) => Answered::Stranger,
        }
    }

    /// The cached locators of this name and use that end after this reading, and the least of their remaining lifetimes,
    /// at least 1, or 4294967295 where that is more; `None` where there is no such locator. Memory is wanted for such
    /// locators alone.
    pub fn known(
        &self,
        name: &Chars,
        kind: Kind,
        now: u64,
    ) -> Result<Option<(Locators, u32)>, OutOfMemory>
        ensures known { IfOk result (λ known. known ≡ known_of self.now (topic_of name.now kind) now) }
        ensures lifetime { IfOk result (λ known. IfSome known (λ told. 1 ≤ told.1)) }
        ensures wanted { OnErr result (IsSome (known_of self.now (topic_of name.now kind) now)) }
        ensures sound { IsDiscoveries self.now }
    {
        let Some(cached) = entry_of(&self.entries, name, kind) else {
            return Ok(None);
        };
        match cached.live(now)? {
            Some(locators) => Ok(Some((locators, cached.least_left(now)))),
            None => Ok(None),
        }
    }

    /// Takes a response of this session number and initiator, whose locators have this lifetime, at the node of this
    /// address, and answers who asked for it (RFC 8990, section 2.8.5). Whether the locators were diverted is no matter.
    ///
    /// What was asked for is cached under the name and use that were looked for. A locator that is cached keeps the later
    /// end. A ninth locator of an entry and a 129th entry are dropped. After an `Err` nothing has changed.
    pub fn answered(
        &mut self,
        now: u64,
        own: Address,
        session: u32,
        initiator: Address,
        ttl: u32,
        locators: &Locators,
    ) -> Result<Answered, OutOfMemory>
        ensures reply { IfOk result (λ answered. answered ≡ answered_reply (asker_of self.old own (origin_of session initiator))) }
        ensures after { OnOk result (self.new ≡ after_answered self.old (end_of now ttl) locators.now (asker_of self.old own (origin_of session initiator))) }
        ensures err { OnErr result (self.new ≡ self.old) }
        ensures wanted { OnErr result (IsSome (asker_of self.old own (origin_of session initiator))) }
        ensures sound { IsDiscoveries self.new }
    {
        let origin = Origin { session, initiator };
        let Some((answered, topic)) = self.asker_of(own, origin)? else {
            return Ok(Answered::Stranger);
        };
        let end = end_of(now, ttl);
        keep_response(&mut self.entries, topic, end, locators)?;
        self.earliest = self.earliest.min(end);
        Ok(answered)
    }

    /// Marks searches whose reading has come as over, and drops locators and memories that have ended by this reading. An
    /// entry goes with its last locator. It takes no memory.
    pub fn expire(&mut self, now: u64)
        ensures after { self.new ≡ after_expiry self.old now }
        ensures sound { IsDiscoveries self.new }
    {
        if now < self.earliest {
            return;
        }
        mark_over(&mut self.searches, now);
        expire_all(&mut self.entries, now);
        self.entries.retain(|_topic, cached| !cached.is_empty());
        self.memories.retain(|_origin, memory| now < memory.end);
        self.earliest = earliest_search(&self.searches)
            .min(earliest_cached(&self.entries))
            .min(earliest_remembered(&self.memories));
    }

    /// Whether 64 searches are kept. It takes no memory.
    pub fn full(&self) -> bool
        ensures { result ≡ is_full self.now }
    {
        self.searches.len() == MOST_SEARCHES
    }

    /// Whether a kept search has this session number. It takes no memory.
    pub fn uses(&self, session: u32) -> bool
        ensures { result ≡ is_used self.now session }
    {
        self.searches.iter().any(|search| search.session == session)
    }

    /// Drops the searches of this agent. It takes no memory.
    pub fn drop_asa(&mut self, asa: u32)
        ensures after { self.new ≡ without_asa self.old asa }
        ensures sound { IsDiscoveries self.new }
    {
        self.searches.retain(|search| search.asa != asa);
    }

    /// Ends this agent's search for this name and use, where this answer does.
    fn end_search(&mut self, asa: u32, name: &Chars, kind: Kind, answer: &Find)
        ensures after { self.new ≡ after_find self.old asa (topic_of name.now kind) answer.now }
        ensures sound { IsDiscoveries self.new }
    {
        match answer {
            Find::Found(_) | Find::Nothing => {
                self.searches
                    .retain(|search| !search.is_of(asa, name, kind));
            }
            Find::NotYet | Find::Fresh => {}
        }
    }

    /// This agent's search for this name and use.
    fn search_of(&self, asa: u32, name: &Chars, kind: Kind) -> Option<&Search>
        ensures { option_map (λ search. search.now) result ≡ find (is_search_of asa (topic_of name.now kind)) self.now.searches }
    {
        self.searches
            .iter()
            .find(|search| search.is_of(asa, name, kind))
    }

    /// Who asked for a response of this number and initiator, and what was looked for.
    fn asker_of(
        &self,
        own: Address,
        origin: Origin,
    ) -> Result<Option<(Answered, Topic)>, OutOfMemory>
        ensures asker { IfOk result (λ asker. asker ≡ asker_of self.now own origin) }
        ensures wanted { OnErr result (IsSome (asker_of self.now own origin)) }
    {
        match (self.own_search(own, origin), self.memories.get(&origin)) {
            (Some(search), _) => Ok(Some((Answered::Mine, search.topic.copy()?))),
            (None, Some(memory)) => {
                Ok(Some((Answered::Relay(memory.cause), memory.topic.copy()?)))
            }
            (None, None) => Ok(None),
        }
    }

    /// The first search of this number, where this node is the initiator.
    fn own_search(&self, own: Address, origin: Origin) -> Option<&Search>
        ensures { option_map (λ search. search.now) result ≡ own_search self.now own origin }
    {
        if own == origin.initiator {
            self.numbered(origin.session)
        } else {
            None
        }
    }

    /// The first search of this number.
    fn numbered(&self, session: u32) -> Option<&Search>
        ensures { option_map (λ search. search.now) result ≡ find (is_numbered session) self.now.searches }
    {
        self.searches
            .iter()
            .find(|search| search.session == session)
    }
}
