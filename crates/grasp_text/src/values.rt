//! Values and raw bytes as words: `x` and hexadecimal digits, a value's those of its shortest encoding.

ghost use Rattle.std.specs.Prelude.{◌≡◌, ◌≤◌, ℕ, List, ◌++◌, ◌∷◌, [], OnOk, OnErr, IfOk, IfSome, IfNone, option_map, string_bytes};
ghost use Rattle.grasp_cbor.specs.Build.{item_at};
ghost use Rattle.grasp_cbor.specs.Bytes.{AllBytes};
ghost use Rattle.grasp_cbor.specs.DataItem.{DataItem, depth_of};
ghost use Rattle.grasp_cbor.specs.Extends.{Extends};
ghost use Rattle.grasp_cbor.specs.Item.{data_item_of};
ghost use Rattle.grasp_types.specs.Objective.{IsValue};
ghost use Rattle.grasp_text.specs.Line.{value_word, bytes_word};
ghost use Rattle.grasp_text.specs.Reading.{value_of, as_value, bytes_of};
ghost use Rattle.grasp_text.specs.Words.{spaced};

use crate::digits::read_digits;
use crate::texts::behind;
use grasp_cbor::{Item, OutOfMemory, behind_shortest, read_first_item, write_item};
use grasp_types::Value;
use std::alloc::Global;

/// Room for the encoding of most values.
const MOST_VALUES: usize = 64;

/// The bytes of lower-case hexadecimal digits, or `None`.
#[tactic(auto, unfolding(crate::specs::Reading::bytes_of))]
fn bytes_of_digits(alloc: Global, digits: &[u8]) -> Result<Option<Vec<u8>>, OutOfMemory>
    ensures { IfOk result (λ o. option_map (λ v. v.items) o ≡ bytes_of digits.now) }
{
    if digits.len() % 2 != 0 {
        return Ok(None);
    }
    let mut bytes = Vec::with_capacity(alloc, digits.len() / 2)?;
    bytes.resize(digits.len() / 2, 0u8)?;
    if read_digits(digits, bytes.as_mut_slice()) {
        Ok(Some(bytes))
    } else {
        Ok(None)
    }
}

/// The item at the front of the bytes, where it is no deeper than a value, and what follows.
fn first_item(alloc: Global, bytes: &[u8]) -> Result<Option<(Item, &[u8])>, OutOfMemory>
    ensures value { IfOk result (λ o. option_map (λ p. (data_item_of p.0, p.1.now)) o ≡ item_at 13 bytes.now) }
    ensures shallow { IfOk result (λ o. IfSome o (λ p. depth_of (data_item_of p.0) ≤ 13)) }
{
    read_first_item(alloc, bytes, 13)
}

/// The value whose shortest encoding these bytes are, or `None`.
#[tactic(auto, using(crate::proofs::ValueWords::whole))]
pub(crate) fn value_of_bytes(alloc: Global, bytes: &[u8]) -> Result<Option<Value>, OutOfMemory>
    ensures { IfOk result (λ o. o ≡ as_value bytes.now (item_at 13 bytes.now)) }
{
    let Some((item, rest)) = first_item(alloc, bytes)? else {
        return Ok(None);
    };
    if !rest.is_empty() {
        return Ok(None);
    }
    let Some(behind) = behind_shortest(&item, bytes) else {
        return Ok(None);
    };
    if !behind.is_empty() {
        return Ok(None);
    }
    match Value::of(item) {
        Ok(value) => Ok(Some(value)),
        Err(_) => unreachable!(),
    }
}

/// The value of a word, or `None` where no value has it.
pub fn value(alloc: Global, word: &[u8]) -> Result<Option<Value>, OutOfMemory>
    ensures found { IfOk result (λ o. IfSome o (λ v. word.now ≡ value_word v)) }
    ensures valid { IfOk result (λ o. IfSome o IsValue) }
    ensures none { IfOk result (λ o. IfNone o ((v : DataItem) → IsValue v → ¬ (word.now ≡ value_word v))) }
    ensures value { IfOk result (λ o. o ≡ value_of word.now) }
{
    read_value(alloc, word)
}

/// The bytes of a word: `x` and two lower-case hexadecimal digits for each, or `None` where no bytes have the word.
pub fn bytes(alloc: Global, word: &[u8]) -> Result<Option<Vec<u8>>, OutOfMemory>
    ensures found { IfOk result (λ o. IfSome o (λ v. word.now ≡ bytes_word v.items)) }
    ensures none { IfOk result (λ o. IfNone o ((b : List ℕ) → AllBytes b → ¬ (word.now ≡ bytes_word b))) }
{
    match behind(b'x', word) {
        Some(digits) => bytes_of_digits(alloc, digits),
        None => Ok(None),
    }
}

/// The value behind the `x`, or `None`.
#[tactic(auto, unfolding(crate::specs::Reading::value_of))]
fn read_value(alloc: Global, word: &[u8]) -> Result<Option<Value>, OutOfMemory>
    ensures { IfOk result (λ o. o ≡ value_of word.now) }
{
    match behind(b'x', word) {
        Some(digits) => match bytes_of_digits(alloc, digits)? {
            Some(bytes) => value_of_bytes(alloc, &bytes),
            None => Ok(None),
        },
        None => Ok(None),
    }
}

/// Appends a blank and a value. After an `Err` a part of them may have been appended.
pub fn push_value(alloc: Global, out: &mut String, value: &Value) -> Result<(), OutOfMemory>
    ensures text { OnOk result (string_bytes out.new ≡ string_bytes out.old ++ spaced (value_word value.now ∷ [])) }
    ensures ranges { OnOk result (IsValue value.now) }
    ensures err { OnErr result (Extends (string_bytes out.old) (string_bytes out.new)) }
{
    let mut bytes = Vec::with_capacity(alloc, MOST_VALUES)?;
    write_item(value.item(), &mut bytes)?;
    push_bytes(alloc, out, bytes.as_slice())
}

/// Appends a blank, `x` and the digits of bytes. After an `Err` a part of them may have been appended.
pub fn push_bytes(alloc: Global, out: &mut String, bytes: &[u8]) -> Result<(), OutOfMemory>
    ensures text { OnOk result (string_bytes out.new ≡ string_bytes out.old ++ spaced (bytes_word bytes.now ∷ [])) }
    ensures err { OnErr result (Extends (string_bytes out.old) (string_bytes out.new)) }
{
    let digits = hex::encode(alloc, bytes)?;
    out.push(' ')?;
    out.push('x')?;
    out.push_str(digits.as_str())?;
    Ok(())
}
