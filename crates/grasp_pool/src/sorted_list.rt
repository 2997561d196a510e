//! Lists of prefixes in rising order of address.

ghost use Rattle.std.specs.Prelude.{◌≡◌, [], ℕ, ◌<◌, ◌≤◌, List, Contains, length, slice_index_or, MatchOption, vec_len, vec_capacity, nat_lt};
ghost use Rattle.grasp_types.specs.Prefix.{AddressBlock};
ghost use Rattle.grasp_pool.specs.Canonical.{IsRising};
ghost use Rattle.grasp_pool.specs.Parts.{BeginBelow, BeginFrom, IsEntryAt};
ghost use Rattle.grasp_pool.specs.Functions.{add, each, without};
ghost use Rattle.grasp_pool.specs.Listings.{AreDisjoint};

use grasp_types::Prefix;

/// The first place whose prefix isn't below the address.
pub fn place_of(list: &[Prefix], address: u128) -> usize
    requires { IsRising list.now }
    ensures within { result ≤ length list.now }
    ensures below { BeginBelow list.now result address }
    ensures above { BeginFrom list.now result address }
{
    list.partition_point(
        |entry: &Prefix| -> bool
            ensures { result ≡ nat_lt entry.now.address address }
        { entry.address() < address },
    )
}

/// The entry at a place, where there is one.
pub fn entry_at(list: &[Prefix], i: usize) -> Option<Prefix>
    ensures { IsEntryAt list.now i result }
{
    if i < list.len() { Some(list[i]) } else { None }
}

/// The place of a prefix.
pub fn find_prefix(list: &[Prefix], prefix: Prefix) -> Option<usize>
    requires { IsRising list.now }
    ensures { MatchOption result (¬ (Contains list.now prefix)) (λ i. (i < length list.now) × (slice_index_or list.now i prefix ≡ prefix)) }
{
    let i = place_of(list, prefix.address());
    if i == list.len() {
        return None;
    }
    if list[i] != prefix {
        return None;
    }
    Some(i)
}

/// Puts a prefix into the list, which has room for it. It takes no memory.
pub fn insert_prefix(list: &mut Vec<Prefix>, prefix: Prefix)
    requires rising { IsRising list.old.items }
    requires room { vec_len list.old < vec_capacity list.old }
    requires is_new { (q : AddressBlock) → Contains list.old.items q → ¬ (q.address ≡ prefix.address) }
    ensures is { list.new.items ≡ add prefix list.old.items }
    ensures capacity { vec_capacity list.new ≡ vec_capacity list.old }
{
    let i = place_of(list, prefix.address());
    let Ok(()) = list.insert(i, prefix) else {
        unreachable!()
    };
}

/// Puts prefixes into an empty list, which has room for them. It takes no memory.
pub fn insert_all(list: &mut Vec<Prefix>, prefixes: &[Prefix])
    requires empty { list.old.items ≡ [] }
    requires room { length prefixes.now ≤ vec_capacity list.old }
    requires disjoint { AreDisjoint prefixes.now }
    ensures is { list.new.items ≡ each add prefixes.now [] }
    ensures capacity { vec_capacity list.new ≡ vec_capacity list.old }
{
    for prefix in prefixes {
        insert_prefix(list, *prefix);
    }
}

/// Takes the prefix at this place out of the list.
pub fn remove_at(list: &mut Vec<Prefix>, i: usize) -> Prefix
    requires rising { IsRising list.old.items }
    requires within { i < vec_len list.old }
    ensures value { result ≡ slice_index_or list.old.items i result }
    ensures is { list.new.items ≡ without result.address list.old.items }
    ensures below { BeginBelow list.new.items i result.address }
    ensures within { i ≤ vec_len list.new }
    ensures capacity { vec_capacity list.new ≡ vec_capacity list.old }
{
    list.remove(i)
}

/// Takes a prefix out of the list, which has it.
pub fn drop_prefix(list: &mut Vec<Prefix>, prefix: Prefix)
    requires rising { IsRising list.old.items }
    requires has { Contains list.old.items prefix }
    ensures is { list.new.items ≡ without prefix.address list.old.items }
    ensures capacity { vec_capacity list.new ≡ vec_capacity list.old }
{
    let Some(i) = find_prefix(list, prefix) else {
        unreachable!()
    };
    remove_at(list, i);
}
