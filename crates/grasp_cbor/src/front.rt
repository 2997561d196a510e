//! Reading the parts of items from the front of bytes, each with what follows. Heads may have any size, strings and arrays
//! have a definite length (RFC 8949, section 3).

ghost use Rattle.std.specs.Prelude.{◌≡◌, ◌<◌, ◌≤◌, ℕ, List, IfOk, IfSome, IfNone, option_map};
ghost use Rattle.std.specs.Str.{IsUtf8};
ghost use Rattle.grasp_cbor.specs.DataItem.{DataItem, unsigned, simple_value, depth_of};
ghost use Rattle.grasp_cbor.specs.Item.{data_item_of};
ghost use Rattle.grasp_cbor.specs.Leading.{Leads, LeadsArray, LeadsBytes, LeadsText};
ghost use Rattle.grasp_cbor.specs.Build.{value_at, argument_in, string_in, bytes_at};
ghost use Rattle.grasp_cbor.specs.declared.heads.StringKind.TheVariants as kinds;

use crate::build::build_item;
use crate::heads::{BuildError, as_text, read_argument};
use crate::{Item, OutOfMemory};
use std::alloc::Global;

/// Reads an unsigned number, and answers the bytes after it.
pub fn read_unsigned(bytes: &[u8]) -> Option<(u64, &[u8])>
    ensures some { IfSome result (λ p. Leads (unsigned p.0) bytes.now p.1.now) }
    ensures none { IfNone result ((n : ℕ) (rest : List ℕ) → ¬ Leads (unsigned n) bytes.now rest) }
{
    read_head_of(0, bytes)
}

/// Reads the head of an array of definite length, and answers how many items follow, and the bytes after the head.
pub fn read_array_head(bytes: &[u8]) -> Option<(u64, &[u8])>
    ensures some { IfSome result (λ p. LeadsArray p.0 bytes.now p.1.now) }
    ensures none { IfNone result ((count : ℕ) (rest : List ℕ) → ¬ LeadsArray count bytes.now rest) }
{
    read_head_of(4, bytes)
}

/// Reads a byte string of definite length, and answers its content and the bytes after it.
pub fn read_byte_string(bytes: &[u8]) -> Option<(&[u8], &[u8])>
    ensures some { IfSome result (λ p. LeadsBytes p.0.now bytes.now p.1.now) }
    ensures none { IfNone result ((content rest : List ℕ) → ¬ LeadsBytes content bytes.now rest) }
{
    find_byte_string(bytes)
}

/// Reads a text string of definite length, and answers its content and the bytes after it.
pub fn read_text_string(bytes: &[u8]) -> Option<(&str, &[u8])>
    ensures some { IfSome result (λ p. LeadsText p.0.now bytes.now p.1.now) }
    ensures utf8 { IfSome result (λ p. IsUtf8 p.0.now) }
    ensures none { IfNone result ((content rest : List ℕ) → ¬ LeadsText content bytes.now rest) }
{
    find_text_string(bytes)
}

/// Reads null, and answers the bytes after it.
pub fn read_null(bytes: &[u8]) -> Option<&[u8]>
    ensures some { IfSome result (λ rest. Leads (simple_value 22) bytes.now rest.now) }
    ensures none { IfNone result ((rest : List ℕ) → ¬ Leads (simple_value 22) bytes.now rest) }
{
    match bytes {
        [0xf6, rest @ ..] => Some(rest),
        _ => None,
    }
}

/// Makes the item that leads the bytes, where it is so deep at most, and answers the bytes after it.
pub fn read_first_item(
    alloc: Global,
    bytes: &[u8],
    depth: u8,
) -> Result<Option<(Item, &[u8])>, OutOfMemory>
    ensures some { IfOk result (λ found. IfSome found (λ p. Leads (data_item_of p.0) bytes.now p.1.now × (depth_of (data_item_of p.0) ≤ depth))) }
    ensures none { IfOk result (λ found. IfNone found ((item : DataItem) (rest : List ℕ) → depth_of item ≤ depth → ¬ Leads item bytes.now rest)) }
{
    match build_item(alloc, bytes, depth) {
        Ok(found) => Ok(Some(found)),
        Err(BuildError::NotItem) => Ok(None),
        Err(BuildError::Memory) => Err(OutOfMemory),
    }
}

/// The argument of a head of this major type, and the bytes after it.
#[tactic(auto, unfolding(crate::specs::Build::argument_in))]
pub(crate) fn read_head_of(major: u8, bytes: &[u8]) -> Option<(u64, &[u8])>
    requires { major < 8 }
    ensures { option_map (λ x. (x.0, x.1.now)) result ≡ argument_in major bytes.now }
{
    let [first, rest @ ..] = bytes else {
        return None;
    };
    if *first / 32 != major {
        return None;
    }
    read_value(*first % 32, rest)
}

/// The argument of a head whose initial byte has these low five bits, and the bytes after it.
#[tactic(auto, using(crate::proofs::Leading::direct_argument))]
fn read_value(info: u8, bytes: &[u8]) -> Option<(u64, &[u8])>
    ensures { option_map (λ x. (x.0, x.1.now)) result ≡ value_at info bytes.now }
{
    if info < 24 {
        return Some((u64::from(info), bytes));
    }
    match read_argument(info, bytes) {
        Ok((argument, rest)) => Some((argument.value(), rest)),
        Err(_) => None,
    }
}

/// The content of a byte string, and the bytes after it.
fn find_byte_string(bytes: &[u8]) -> Option<(&[u8], &[u8])>
    ensures { option_map (λ x. (x.0.now, x.1.now)) result ≡ string_in kinds.Bytes bytes.now }
{
    let (n, rest) = read_head_of(2, bytes)?;
    split(n, rest)
}

/// The content of a text string, and the bytes after it.
#[tactic(auto, unfolding(crate::specs::Build::text_at))]
fn find_text_string(bytes: &[u8]) -> Option<(&str, &[u8])>
    ensures { option_map (λ x. (x.0.now, x.1.now)) result ≡ string_in kinds.Text bytes.now }
{
    let (n, rest) = read_head_of(3, bytes)?;
    let (front, rest) = split(n, rest)?;
    Some((as_text(front)?, rest))
}

/// The first so many bytes, and the rest.
#[tactic(auto, unfolding(crate::specs::Build::bytes_at))]
fn split(n: u64, bytes: &[u8]) -> Option<(&[u8], &[u8])>
    ensures { option_map (λ x. (x.0.now, x.1.now)) result ≡ bytes_at n bytes.now }
{
    if (bytes.len() as u64) < n {
        return None;
    }
    Some(bytes.split_at(n as usize))
}
