//! Prefixes in order, of which no two may overlap: those of roots, or those of an image.

ghost use Rattle.std.specs.Prelude.{◌≡◌, ◌<◌, ◌≤◌, ◌++◌, [], length, map, slice_index_or, MatchOption};
ghost use Rattle.grasp_types.specs.Prefix.{AddressBlock};
ghost use Rattle.grasp_pool.specs.Spans.{IsValid};
ghost use Rattle.grasp_pool.specs.Functions.{each, join};
ghost use Rattle.grasp_pool.specs.Roots.{block_of, AllValid};
ghost use Rattle.grasp_pool.specs.Listings.{listed, CanTell, ApartBelow, AreDisjoint, IsHitIn, IsClashIn};

use crate::free_list::FreeList;
use crate::image::PoolImage;
use crate::overlapping::overlaps;
use crate::roots::{Clash, RootPrefix, prefix_of};
use grasp_types::Prefix;

/// Prefixes in order.
#[derive(Clone, Copy)]
pub enum Listing<'a> {
    /// Those of roots, each of which is known to be a prefix.
    Roots(&'a [RootPrefix]),
    /// Prefixes themselves.
    Prefixes(&'a [Prefix]),
    /// Those of an image: the free ones, and then the doubtful ones.
    Image(&'a PoolImage),
}

/// The prefix at this place of a list.
fn prefix_in(prefixes: &[Prefix], i: usize) -> Prefix
    requires { i < length prefixes.now }
    ensures { result ≡ slice_index_or prefixes.now i result }
{
    prefixes[i]
}

/// The prefix that the root at this place is.
fn root_at(roots: &[RootPrefix], i: usize) -> Prefix
    requires valid { AllValid roots.now (length roots.now) }
    requires within { i < length roots.now }
    ensures { result ≡ slice_index_or (map block_of roots.now) i result }
{
    prefix_of(roots[i])
}

/// The prefix of an image at this place.
fn image_at(image: &PoolImage, i: usize) -> Prefix
    requires { i < length (image.now.free ++ image.now.doubtful) }
    ensures { result ≡ slice_index_or (image.now.free ++ image.now.doubtful) i result }
{
    let free = image.free.slice();
    if i < free.len() {
        prefix_in(free, i)
    } else {
        prefix_in(image.doubtful.slice(), i - free.len())
    }
}

/// The prefix at this place.
fn entry_at(listing: &Listing<'_>, i: usize) -> Prefix
    requires tells { CanTell listing.now }
    requires within { i < length (listed listing.now) }
    ensures is { result ≡ slice_index_or (listed listing.now) i result }
    ensures valid { IsValid result }
{
    let prefix = match *listing {
        Listing::Roots(roots) => root_at(roots, i),
        Listing::Prefixes(prefixes) => prefix_in(prefixes, i),
        Listing::Image(image) => image_at(image, i),
    };
    // What is read of a prefix tells that it is one.
    let _address = prefix.address();
    prefix
}

/// The first of the first `count` prefixes that overlaps this one.
fn first_hit(listing: &Listing<'_>, prefix: Prefix, count: usize) -> Option<usize>
    requires tells { CanTell listing.now }
    requires within { count ≤ length (listed listing.now) }
    ensures { MatchOption result (ApartBelow (listed listing.now) prefix count) (λ i. IsHitIn (listed listing.now) prefix count i) }
{
    for i in 0..count {
        if overlaps(entry_at(listing, i), prefix) {
            return Some(i);
        }
    }
    None
}

/// The least second prefix that overlaps an earlier one, and the least such first. `count` is how many there are.
pub fn first_clash(listing: &Listing<'_>, count: usize) -> Option<Clash>
    requires tells { CanTell listing.now }
    requires all { count ≡ length (listed listing.now) }
    ensures { MatchOption result (AreDisjoint (listed listing.now)) (λ c. IsClashIn (listed listing.now) c) }
{
    for second in 0..count {
        if let Some(first) = first_hit(listing, entry_at(listing, second), second) {
            return Some(Clash { first, second });
        }
    }
    None
}

/// Puts the prefixes into an empty list. `count` is how many there are.
pub fn fill(list: &mut FreeList, listing: &Listing<'_>, count: usize)
    requires empty { list.old ≡ [] }
    requires few { count ≤ 4096 }
    requires tells { CanTell listing.now }
    requires all { count ≡ length (listed listing.now) }
    requires disjoint { AreDisjoint (listed listing.now) }
    ensures { list.new ≡ each join (listed listing.now) [] }
{
    for place in 0..count {
        list.merge_in(entry_at(listing, place));
    }
}
