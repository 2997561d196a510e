//! Laws of the definitions that the cache's contracts cite.

ghost use Rattle.grasp_flood.specs.Laws.{ExpiryTwiceIsOnce, NothingEndedStays, FloodsAreKept, OnlyTheEndedGo, LastPartIsKept, EntriesAreTold};
ghost use Rattle.grasp_flood.specs.Laws.{ReadsAreEntries, RememberedStays};

/// What has expired at a reading leaves nothing more to expire at that reading.
#[tactic(auto, using(crate::proofs::Expiry::expiry_twice))]
pub fn expiry_twice_is_once()
    ensures { ExpiryTwiceIsOnce }
{}

/// After an expiry whatever is told or remembered ends later, or never.
pub fn nothing_ended_stays()
    ensures { NothingEndedStays }
{}

/// Whatever comes, there are at most 128 entries and 256 memories, and each has a key of its own.
pub fn floods_are_kept()
    ensures { FloodsAreKept }
{}

/// An expiry drops only what has ended, and what stays keeps its order.
pub fn only_the_ended_go()
    ensures { OnlyTheEndedGo }
{}

/// After a new flood its last part of each name is kept, unless nothing was kept of it and there is no place; whatever else
/// was kept is kept.
pub fn last_part_is_kept()
    ensures { LastPartIsKept }
{}

/// After a flood each entry is one that was there, perhaps with a later end, or a part of this flood.
pub fn entries_are_told()
    ensures { EntriesAreTold }
{}

/// Whoever asks for a name is told what is kept of that name, and nothing else.
pub fn reads_are_entries()
    ensures { ReadsAreEntries }
{}

/// A new flood is remembered for 120000 ms: it stays so through every call but an expiry at its end or past it, and for so
/// long it is known.
#[tactic(auto, using(crate::proofs::LawFloods::remembered_stays))]
pub fn remembered_stays()
    ensures { RememberedStays }
{}
