//! Passing over items that stand in their shortest encoding (RFC 8949, section 4.2.1), without making them. Where anything else
//! stands nothing is said of the bytes.

ghost use Rattle.std.specs.Prelude.{◌≡◌, ◌<◌, ◌≤◌, ◌+◌, ◌++◌, ℕ, List, IfSome, length};
ghost use Rattle.std.specs.Str.{IsUtf8};
ghost use Rattle.grasp_cbor.specs.Length.{head_length};
ghost use Rattle.grasp_cbor.specs.Minimal.{LeadsHead, LeadsShortest, LeadShortest};

use crate::front::read_head_of;
use crate::heads::{Argument, Major, read_byte, read_bytes, read_head, read_text};

/// What follows the item that begins the bytes, where it stands in its shortest encoding and is so deep at most.
pub fn behind_shortest_item(bytes: &[u8], depth: u8) -> Option<&[u8]>
    ensures { IfSome result (λ rest. LeadsShortest depth bytes.now rest.now) }
{
    behind_one(bytes, depth)
}

/// What follows so many items, each in its shortest encoding and so deep at most.
#[cycle(pass)]
fn behind_many(bytes: &[u8], count: u64, depth: u8) -> Option<&[u8]>
    ensures { IfSome result (λ rest. LeadShortest count depth bytes.now rest.now) }
{
    let mut rest = bytes;
    let mut left = count;
    while left > 0 {
        rest = behind_one(rest, depth)?;
        left -= 1;
    }
    Some(rest)
}

#[cycle(pass)]
#[inline(always)]
fn behind_one(bytes: &[u8], depth: u8) -> Option<&[u8]>
    ensures { IfSome result (λ rest. LeadsShortest depth bytes.now rest.now) }
{
    let Ok((first, _)) = read_byte(bytes) else {
        return None;
    };
    let major = first / 32;
    if major == 7 {
        return behind_plain(bytes);
    }
    let (n, rest) = read_shortest_head(major, bytes)?;
    if major < 2 {
        Some(rest)
    } else if major == 2 {
        match read_bytes(n, rest) {
            Ok((_, rest)) => Some(rest),
            Err(_) => None,
        }
    } else if major == 3 {
        match read_text(n, rest) {
            Ok((_, rest)) => Some(rest),
            Err(_) => None,
        }
    } else {
        behind_nested(major, n, rest, depth)
    }
}

/// What follows the parts of an array, a map or a tag behind its head, which has this argument.
#[cycle(pass)]
fn behind_nested(major: u8, n: u64, bytes: &[u8], depth: u8) -> Option<&[u8]>
    requires least { 4 ≤ major }
    requires most { major < 7 }
    ensures { IfSome result (λ rest. (s : List ℕ) → LeadsHead major n s bytes.now → LeadsShortest depth s rest.now) }
{
    let inner = depth.checked_sub(1)?;
    if major == 4 {
        behind_many(bytes, n, inner)
    } else if major == 5 {
        if n > bytes.len() as u64 {
            return None;
        }
        behind_many(bytes, 2 * n, inner)
    } else {
        behind_one(bytes, inner)
    }
}

/// The argument of the shortest head of this major type that begins the bytes, and the bytes after it.
#[inline(always)]
fn read_shortest_head(major: u8, bytes: &[u8]) -> Option<(u64, &[u8])>
    requires { major < 8 }
    ensures { IfSome result (λ p. LeadsHead major p.0 bytes.now p.1.now) }
{
    let (n, rest) = read_head_of(major, bytes)?;
    if bytes.len() - rest.len() == shortest_len(n) {
        Some((n, rest))
    } else {
        None
    }
}

/// How many bytes the shortest head of an argument has.
#[inline(always)]
#[tactic(auto, unfolding(crate::specs::Length::head_length, crate::specs::Head::shortest_head, crate::specs::Head::shortest_size))]
fn shortest_len(n: u64) -> usize
    ensures { result ≡ head_length n }
{
    if n < 24 {
        1
    } else if n < 0x100 {
        2
    } else if n < 0x1_0000 {
        3
    } else if n < 0x1_0000_0000 {
        5
    } else {
        9
    }
}

/// What follows a simple value or a float.
fn behind_plain(bytes: &[u8]) -> Option<&[u8]>
    ensures { IfSome result (λ rest. LeadsShortest 0 bytes.now rest.now) }
{
    let Ok((head, rest)) = read_head(bytes) else {
        return None;
    };
    match head.major {
        Major::Simple => match head.argument {
            Argument::Direct(_) => Some(rest),
            Argument::One(n) => { if n < 32 { None } else { Some(rest) } }
            Argument::Two(_) => Some(rest),
            Argument::Four(_) => Some(rest),
            Argument::Eight(_) => Some(rest),
        },
        _ => None,
    }
}
