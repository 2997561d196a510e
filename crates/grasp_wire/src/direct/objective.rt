//! Objectives (RFC 8990, section 2.10) and values.

ghost use Rattle.std.specs.Prelude.{◌≡◌, ◌+◌, IfSome, length, option_map};
ghost use Rattle.grasp_cbor.specs.Leading.{Leads};
ghost use Rattle.grasp_types.specs.Objective.{optional, objective_item, IsObjective, IsValue};
ghost use Rattle.grasp_wire.specs.Direct.{LeadAll};

use crate::direct::scalars::{read_text, read_u8};
use grasp_cbor::{read_array_head, read_first_item};
use grasp_types::{Flags, Objective, Value};
use std::alloc::Global;

/// A value.
fn read_value(alloc: Global, bytes: &[u8]) -> Option<(Value, &[u8])>
    ensures leads { IfSome result (λ p. Leads p.0 bytes.now p.1.now) }
    ensures range { IfSome result (λ p. IsValue p.0) }
{
    match read_first_item(alloc, bytes, 13) {
        Ok(Some((item, rest))) => match Value::of(item) {
            Ok(value) => Some((value, rest)),
            Err(_) => None,
        },
        _ => None,
    }
}

/// The last value of an array of so many parts, of which so many stand before it; or none where the array ends there.
pub(crate) fn read_last_value(
    alloc: Global,
    count: u64,
    before: u64,
    bytes: &[u8],
) -> Option<(Option<Value>, &[u8])>
    ensures leads { IfSome result (λ p. LeadAll (optional p.0) bytes.now p.1.now) }
    ensures counts { IfSome result (λ p. count ≡ length (optional p.0) + before) }
    ensures range { IfSome result (λ p. IfSome p.0 IsValue) }
{
    match count.checked_sub(before) {
        Some(0) => Some((None, bytes)),
        Some(1) => {
            let (value, rest) = read_value(alloc, bytes)?;
            Some((Some(value), rest))
        }
        _ => None,
    }
}

/// An objective.
pub(crate) fn read_objective(alloc: Global, bytes: &[u8]) -> Option<(Objective, &[u8])>
    ensures leads { IfSome result (λ p. Leads (objective_item p.0) bytes.now p.1.now) }
    ensures range { IfSome result (λ p. IsObjective p.0) }
{
    let (count, rest) = read_array_head(bytes)?;
    let (name, rest) = read_text(alloc, rest)?;
    let (bits, rest) = read_u8(rest)?;
    let flags = Flags::of(bits)?;
    let (loops, rest) = read_u8(rest)?;
    let (value, rest) = read_last_value(alloc, count, 3, rest)?;
    let objective = Objective {
        name,
        flags,
        loops,
        value,
    };
    Some((objective, rest))
}

/// The last objective of an array of so many parts, of which so many stand before it; or none where the array ends there.
pub(crate) fn read_last_objective(
    alloc: Global,
    count: u64,
    before: u64,
    bytes: &[u8],
) -> Option<(Option<Objective>, &[u8])>
    ensures leads { IfSome result (λ p. LeadAll (optional (option_map objective_item p.0)) bytes.now p.1.now) }
    ensures counts { IfSome result (λ p. count ≡ length (optional (option_map objective_item p.0)) + before) }
    ensures range { IfSome result (λ p. IfSome p.0 IsObjective) }
{
    match count.checked_sub(before) {
        Some(0) => Some((None, bytes)),
        Some(1) => {
            let (objective, rest) = read_objective(alloc, bytes)?;
            Some((Some(objective), rest))
        }
        _ => None,
    }
}
