//! What a node answers to a discovery and to a response, what it keeps of them, and what it tells of a topic. These
//! functions say nothing at run time.

ghost use Rattle.grasp_laws_tables.specs.Discoveries.{AnswersAreCached, DiscoveriesAreKnown, KnownIsLive, LocatorsEndInTime, MemoriesAreOfDiscoveries};

/// A discovery is known exactly where it is remembered, and any other is new exactly where fewer than 256 are.
#[tactic(auto, using(crate::proofs::DiscoveryLaws::discoveries_known))]
pub fn discoveries_are_known()
    ensures { DiscoveriesAreKnown }
{}

/// What is remembered of a discovery is the neighbour that caused it and what it looks for, for 60000 ms; a new one is
/// remembered so, and else nothing changes. One that is known, or has no place, changes nothing.
#[tactic(auto, using(crate::proofs::DiscoveryLaws::memories_of))]
pub fn memories_are_of_discoveries()
    ensures { MemoriesAreOfDiscoveries }
{}

/// After a response that was asked for, each of its locators is cached under the topic, unless 8 others or 128 other
/// topics are; what was cached ends no earlier than before, and nothing else changes.
#[tactic(auto, using(crate::proofs::Responses::answers_cached))]
pub fn answers_are_cached()
    ensures { AnswersAreCached }
{}

/// Locators end after their lifetime, and after 600000 ms where that is 0.
#[tactic(auto, using(crate::proofs::DiscoveryLaws::end_in_time))]
pub fn locators_end_in_time()
    ensures { LocatorsEndInTime }
{}

/// What is told of a topic is each locator that ends later, and the least of the lifetimes that are left, at most
/// 4294967295; nothing is told exactly where all has ended.
#[tactic(auto, using(crate::proofs::Lifetimes::known_live))]
pub fn known_is_live()
    ensures { KnownIsLive }
{}
