//! Messages read straight from bytes in which arrays and strings have a definite length, without making items of them. Where
//! anything else stands there nothing is read, and nothing is said of the bytes.

ghost use Rattle.std.specs.Prelude.{IfSome};
ghost use Rattle.grasp_cbor.specs.Leading.{Leads};
ghost use Rattle.grasp_types.specs.Message.{item_of, IsMessage};
ghost use Rattle.grasp_wire.specs.Direct.{IsDirect};

mod address;
mod answer;
mod flood;
mod kinds;
mod locator;
mod objective;
mod scalars;
mod verdict;

use crate::direct::kinds::read_kind;
use grasp_cbor::{read_array_head, read_unsigned};
use grasp_types::Message;
use std::alloc::Global;

/// A message that leads the bytes, and how many of them it has; or `None` for whatever else, and for want of memory.
pub(crate) fn direct_message(alloc: Global, bytes: &[u8]) -> Option<(Message, usize)>
    ensures { IfSome result (λ p. IsDirect p.0 bytes.now p.1) }
{
    let (message, rest) = read_message(alloc, bytes)?;
    let used = bytes.len() - rest.len();
    Some((message, used))
}

fn read_message(alloc: Global, bytes: &[u8]) -> Option<(Message, &[u8])>
    ensures leads { IfSome result (λ p. Leads (item_of p.0) bytes.now p.1.now) }
    ensures range { IfSome result (λ p. IsMessage p.0) }
{
    let (count, rest) = read_array_head(bytes)?;
    let (kind, rest) = read_unsigned(rest)?;
    read_kind(alloc, count, kind, rest)
}
