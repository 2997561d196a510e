//! For each length the first entry of the free list that is no longer: so a part is found without a search.

ghost use Rattle.std.specs.Prelude.{◌≡◌, ℕ, ◌<◌, ◌≤◌, ◌↔◌, ◌∷◌, length, slice_index_or, IsTrue, Option, Some};
ghost use Rattle.grasp_types.specs.Prefix.{AddressBlock};
ghost use Rattle.grasp_pool.specs.Canonical.{IsRising};
ghost use Rattle.grasp_pool.specs.Parts.{BeginBelow, IsFirstOf, IsIndex, IsNoted, earlier_of};

use crate::sorted_list::entry_at;
use grasp_types::Prefix;

/// Of an entry and a prefix the one of lesser address.
fn earlier(first: Option<Prefix>, prefix: Prefix) -> Option<Prefix>
    ensures { result ≡ earlier_of prefix first }
{
    match first {
        None => Some(prefix),
        Some(entry) => {
            if prefix.address() < entry.address() {
                Some(prefix)
            } else {
                Some(entry)
            }
        }
    }
}

/// Notes an entry that is added.
pub fn note_added(firsts: &mut Vec<Option<Prefix>>, prefix: Prefix)
    requires { length firsts.old.items ≡ 129 }
    ensures { IsNoted firsts.old.items firsts.new.items prefix prefix.length }
{
    for n in usize::from(prefix.length())..firsts.len() {
        firsts[n] = earlier(firsts[n], prefix);
    }
}

/// The first place from this one on whose entry is no longer than `most`, or the end.
fn next_short(entries: &[Prefix], from: usize, most: usize) -> usize
    requires { from ≤ length entries.now }
    ensures from { from ≤ result }
    ensures within { result ≤ length entries.now }
    ensures passed { (k : ℕ) (d : AddressBlock) → from ≤ k → k < result → most < (slice_index_or entries.now k d).length }
    ensures found { (d : AddressBlock) → result < length entries.now → (slice_index_or entries.now result d).length ≤ most }
{
    let mut at = from;
    while at < entries.len() && usize::from(entries[at].length()) > most {
        at += 1;
    }
    at
}

/// Whether it is this prefix.
fn is_it(first: Option<Prefix>, prefix: Prefix) -> bool
    ensures { IsTrue result ↔ (first ≡ Some prefix) }
{
    match first {
        None => false,
        Some(entry) => entry == prefix,
    }
}

/// Notes that a prefix was taken out, from this place of the list.
pub fn note_removed(
    firsts: &mut Vec<Option<Prefix>>,
    entries: &[Prefix],
    from: usize,
    prefix: Prefix,
)
    requires index { IsIndex (prefix ∷ entries.now) firsts.old.items }
    requires rising { IsRising entries.now }
    requires within { from ≤ length entries.now }
    requires below { BeginBelow entries.now from prefix.address }
    ensures { IsIndex entries.now firsts.new.items }
{
    let mut at = from;
    let mut n = firsts.len();
    while n > 0 {
        n -= 1;
        if is_it(firsts[n], prefix) {
            at = next_short(entries, at, n);
            firsts[n] = entry_at(entries, at);
        }
    }
}
