//! Laws of the definitions that the contracts cite.

ghost use Rattle.grasp_discovery.specs.Laws.{ExpiryTwiceIsOnce, NothingEndedStays, KnownIsFound, DiscoveriesAreKept, OnlyTheEndedGo};
ghost use Rattle.grasp_discovery.specs.Laws.{LocatorsAreAnswers, ToldIsCached, RememberedStays};

/// What has expired at a reading leaves nothing more to expire at that reading.
#[tactic(auto, using(crate::proofs::Expiry::expiry_twice))]
pub fn expiry_twice_is_once()
    ensures { ExpiryTwiceIsOnce }
{}

/// After an expiry each search whose reading has come is over, no entry is without a locator, and whatever is cached or
/// remembered ends later.
pub fn nothing_ended_stays()
    ensures { NothingEndedStays }
{}

/// After an expiry `known` and `find` tell the same locators: all that are cached.
pub fn known_is_found()
    ensures { KnownIsFound }
{}

/// Whatever comes, there are at most 64 searches, 128 entries of 1 to 8 locators, and 256 memories, each with a key of its
/// own.
pub fn discoveries_are_kept()
    ensures { DiscoveriesAreKept }
{}

/// An expiry drops only what has ended, and what stays keeps its order. A search is over only where its reading has come.
pub fn only_the_ended_go()
    ensures { OnlyTheEndedGo }
{}

/// After a response each locator that is cached was cached under that topic, or is one of the response's under the topic of
/// whoever asked for it.
pub fn locators_are_answers()
    ensures { LocatorsAreAnswers }
{}

/// `find` and `known` tell locators that are cached under what is looked for.
pub fn told_is_cached()
    ensures { ToldIsCached }
{}

/// A new discovery is remembered with its cause and its topic: it stays so through every call but an expiry at its end or
/// past it, and for so long it is known.
#[tactic(auto, using(crate::proofs::LawDiscoveries::remembered_stays))]
pub fn remembered_stays()
    ensures { RememberedStays }
{}
