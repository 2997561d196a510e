//! The roots that a pool is opened with.

ghost use Rattle.std.specs.Prelude.{◌≡◌, ◌≤◌, [], length, MatchOption};
ghost use Rattle.grasp_types.specs.Prefix.{AddressBlock};
ghost use Rattle.grasp_pool.specs.Spans.{IsValid};
ghost use Rattle.grasp_pool.specs.Functions.{pool_of};
ghost use Rattle.grasp_pool.specs.Roots.{block_of, AllValid, AllApart, IsBad, IsClash};

use crate::free_list::FreeList;
use crate::halves::prefix_at;
use crate::listing::{Listing, fill, first_clash};
use grasp_types::Prefix;

/// A prefix as it is configured, before it is tested.
#[derive(Clone, Copy, Debug, PartialEq, Eq)]
pub struct RootPrefix {
    /// The first address.
    pub address: u128,
    /// How many leading bits are fixed: 1 to 128 in a good root.
    pub length: u8,
}

/// Two roots that overlap.
#[derive(Clone, Copy)]
pub struct Clash {
    pub first: usize,
    pub second: usize,
}

/// The prefix that a good root is.
pub fn prefix_of(root: RootPrefix) -> Prefix
    requires { IsValid (block_of root) }
    ensures { result ≡ block_of root }
{
    prefix_at(root.address, root.length)
}

/// The first root that is no prefix.
pub fn first_bad(roots: &[RootPrefix]) -> Option<usize>
    ensures { MatchOption result (AllValid roots.now (length roots.now)) (λ i. IsBad roots.now i) }
{
    for (i, root) in roots.iter().enumerate() {
        if Prefix::of(root.address, root.length).is_none() {
            return Some(i);
        }
    }
    None
}

/// The least second root that overlaps an earlier one, and the least such first.
pub fn first_root_clash(roots: &[RootPrefix]) -> Option<Clash>
    requires { AllValid roots.now (length roots.now) }
    ensures { MatchOption result (AllApart roots.now (length roots.now)) (λ c. IsClash roots.now c) }
{
    first_clash(&Listing::Roots(roots), roots.len())
}

/// Puts the roots into an empty list.
pub fn fill_roots(list: &mut FreeList, roots: &[RootPrefix])
    requires empty { list.old ≡ [] }
    requires few { length roots.now ≤ 1024 }
    requires valid { AllValid roots.now (length roots.now) }
    requires apart { AllApart roots.now (length roots.now) }
    ensures { list.new ≡ (pool_of roots.now).free }
{
    fill(list, &Listing::Roots(roots), roots.len());
}
