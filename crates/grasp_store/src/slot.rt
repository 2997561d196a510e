//! What the bytes of a slot hold.

ghost use Rattle.std.specs.Prelude.{◌≡◌, ◌↔◌, ◌≤◌, ◌<◌, ◌+◌, ◌*◌, IsTrue, IfSome, IfNone, false, length};
ghost use Rattle.std.specs.Int.{from_be_bytes, w128};
ghost use Rattle.grasp_pool.specs.Spans.{IsValid};
ghost use Rattle.grasp_store.specs.Images.{IsGoodImage};
ghost use Rattle.grasp_store.specs.Reading.{EntriesApart, EntriesDisjoint, EntriesValid, entry_in};
ghost use Rattle.grasp_store.specs.Slots.{body_size, number_at, free_count, doubtful_count, saved_in};

use grasp_pool::overlaps;
use grasp_types::Prefix;

/// How many bytes stand before the prefixes.
const HEAD: usize = 12;

/// How many bytes a prefix takes.
const ENTRY: usize = 17;

/// A slot has room for so many prefixes.
pub(crate) const MOST_ENTRIES: usize = 4096;

/// The number that stands there.
pub(crate) fn number(bytes: &[u8]) -> u64
    requires { 12 ≤ length bytes.now }
    ensures { result ≡ number_at bytes.now }
{
    let f = &bytes[..8];
    u64::from_be_bytes([f[0], f[1], f[2], f[3], f[4], f[5], f[6], f[7]])
}

/// How many free prefixes are told.
pub(crate) fn free_count(bytes: &[u8]) -> usize
    requires { 12 ≤ length bytes.now }
    ensures is { result ≡ free_count bytes.now }
    ensures few { result < 65536 }
{
    u16::from_be_bytes([bytes[8], bytes[9]]) as usize
}

/// How many doubtful prefixes are told.
pub(crate) fn doubtful_count(bytes: &[u8]) -> usize
    requires { 12 ≤ length bytes.now }
    ensures is { result ≡ doubtful_count bytes.now }
    ensures few { result < 65536 }
{
    u16::from_be_bytes([bytes[10], bytes[11]]) as usize
}

/// The number of these 16 bytes, the most significant first.
fn address(bytes: &[u8]) -> u128
    requires { length bytes.now ≡ 16 }
    ensures { result ≡ from_be_bytes w128 bytes.now }
{
    let Ok(bytes) = <[u8; 16]>::try_from(bytes) else {
        unreachable!()
    };
    u128::from_be_bytes(bytes)
}

/// The entry at this place, where it is a prefix.
#[tactic(auto, unfolding(crate::specs::Reading::entry_in))]
pub(crate) fn entry(bytes: &[u8], i: usize) -> Option<Prefix>
    requires { 12 + 17 * (i + 1) ≤ length bytes.now }
    ensures some { IfSome result (λ p. p ≡ entry_in bytes.now i) }
    ensures valid { IfSome result (λ _. IsValid (entry_in bytes.now i)) }
    ensures none { IfNone result (¬ IsValid (entry_in bytes.now i)) }
{
    let at = HEAD + ENTRY * i;
    Prefix::of(address(&bytes[at + 1..at + ENTRY]), bytes[at])
}

/// Whether one of the first `count` entries, which are prefixes, overlaps this one.
fn is_met(bytes: &[u8], prefix: Prefix, count: usize) -> bool
    requires within { 12 + 17 * count ≤ length bytes.now }
    requires valid { EntriesValid bytes.now 0 count }
    ensures { (result ≡ false) ↔ EntriesApart bytes.now prefix count }
{
    for i in 0..count {
        let Some(earlier) = entry(bytes, i) else {
            unreachable!()
        };
        if overlaps(earlier, prefix) {
            return true;
        }
    }
    false
}

/// Whether the first `count` entries are prefixes of which no two overlap.
fn are_disjoint(bytes: &[u8], count: usize) -> bool
    requires { 12 + 17 * count ≤ length bytes.now }
    ensures { IsTrue result ↔ EntriesDisjoint bytes.now count }
{
    for i in 0..count {
        let Some(prefix) = entry(bytes, i) else {
            return false;
        };
        if is_met(bytes, prefix, i) {
            return false;
        }
    }
    true
}

/// Whether a pool can have the image that stands there.
pub(crate) fn is_good(bytes: &[u8]) -> bool
    requires { length bytes.now ≡ body_size }
    ensures { IsTrue result ↔ IsGoodImage (saved_in bytes.now).image }
{
    let count = free_count(bytes) + doubtful_count(bytes);
    count <= MOST_ENTRIES && are_disjoint(bytes, count)
}
