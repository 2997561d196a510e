//! Tests of prefixes and sessions.

ghost use Rattle.std.specs.Prelude.{◌≡◌};
ghost use Rattle.std.specs.List.{list_any};
ghost use Rattle.grasp_pool.specs.Functions.{any_overlaps, overlap_test};
ghost use Rattle.grasp_doubter.specs.Asking.{is_doubtful};
ghost use Rattle.grasp_doubter.specs.Replies.{is_address};
ghost use Rattle.grasp_doubter.specs.Seeing.{is_set_aside};
ghost use Rattle.grasp_doubter.specs.States.{is_prefix, is_session};

use grasp_pool::{Pool, overlaps};
use grasp_types::{Address, Handle, Prefix};

/// Whether the two are one prefix.
pub(crate) fn is_prefix(first: Prefix, second: Prefix) -> bool
    ensures { result ≡ is_prefix first second }
{
    first.address() == second.address() && first.length() == second.length()
}

/// Whether the two name one session.
pub(crate) fn is_session(first: Handle, second: Handle) -> bool
    ensures { result ≡ is_session first second }
{
    first.number == second.number
}

/// Whether the two are one address.
pub(crate) fn is_address(first: Address, second: Address) -> bool
    ensures { result ≡ is_address first second }
{
    match (first, second) {
        (Address::V4(m), Address::V4(n)) => m == n,
        (Address::V6(m), Address::V6(n)) => m == n,
        (Address::V4(_), Address::V6(_)) => false,
        (Address::V6(_), Address::V4(_)) => false,
    }
}

/// Whether the pool has the prefix in doubt.
pub(crate) fn is_doubtful(pool: &Pool, prefix: Prefix) -> bool
    ensures { result ≡ is_doubtful pool.now prefix }
{
    pool.is_doubtful(prefix)
}

/// Whether the pool has the prefix reserved or in doubt.
pub(crate) fn is_set_aside(pool: &Pool, prefix: Prefix) -> bool
    ensures { result ≡ is_set_aside pool.now prefix }
{
    is_reserved(pool, prefix) || is_doubtful(pool, prefix)
}

/// Whether the pool has the prefix reserved.
fn is_reserved(pool: &Pool, prefix: Prefix) -> bool
    ensures { result ≡ list_any (is_prefix prefix) pool.now.reserved }
{
    pool.is_reserved(prefix)
}

/// Whether one of the list overlaps the prefix.
pub(crate) fn any_overlaps(list: &[Prefix], prefix: Prefix) -> bool
    ensures { result ≡ any_overlaps list.now prefix }
{
    for i in 0..list.len() {
        if is_overlap(list[i], prefix) {
            return true;
        }
    }
    false
}

/// Whether the two have an address in common.
fn is_overlap(first: Prefix, second: Prefix) -> bool
    ensures { result ≡ overlap_test first second }
{
    overlaps(first, second)
}
