//! Which entry of a list overlaps a prefix.

ghost use Rattle.std.specs.Prelude.{◌≡◌, ◌↔◌, Contains, IsTrue};
ghost use Rattle.grasp_types.specs.Prefix.{AddressBlock, Overlap};
ghost use Rattle.grasp_pool.specs.Spans.{IsValid};
ghost use Rattle.grasp_pool.specs.Canonical.{IsRising};
ghost use Rattle.grasp_pool.specs.Parts.{ArePairwiseApart, IsOverlapAt, IsAnswer, lesser_of};

use crate::halves::size_of;
use crate::sorted_list::place_of;
use grasp_types::Prefix;

/// Whether two prefixes have an address in common.
pub fn overlaps(first: Prefix, second: Prefix) -> bool
    ensures { IsTrue result ↔ Overlap first second }
{
    let first_size = size_of(first);
    let second_size = size_of(second);
    let first_start = first.address();
    let second_start = second.address();
    if second_start + (second_size - 1) < first_start {
        return false;
    }
    if first_start + (first_size - 1) < second_start {
        return false;
    }
    true
}

/// The entry at this place, where there is one and it overlaps the prefix.
fn overlap_at(list: &[Prefix], i: usize, prefix: Prefix) -> Option<Prefix>
    ensures { IsOverlapAt list.now i prefix result }
{
    if i >= list.len() {
        return None;
    }
    let entry = list[i];
    if overlaps(entry, prefix) {
        return Some(entry);
    }
    None
}

/// The first prefix of the list that overlaps this one. Only two can be it: the last that begins below it, and
/// the first that doesn't.
pub fn first_overlap(list: &[Prefix], prefix: Prefix) -> Option<Prefix>
    requires rising { IsRising list.now }
    requires apart { ArePairwiseApart list.now }
    ensures { IsAnswer list.now prefix result }
{
    let i = place_of(list, prefix.address());
    if i == 0 {
        return overlap_at(list, 0, prefix);
    }
    match overlap_at(list, i - 1, prefix) {
        Some(before) => Some(before),
        None => overlap_at(list, i, prefix),
    }
}

/// The one of lesser address.
pub fn lesser(first: Option<Prefix>, second: Option<Prefix>) -> Option<Prefix>
    ensures { result ≡ lesser_of first second }
{
    match first {
        None => second,
        Some(p) => match second {
            None => Some(p),
            Some(q) => {
                if p.address() <= q.address() {
                    Some(p)
                } else {
                    Some(q)
                }
            }
        },
    }
}
