//! Verdicts (RFC 8990, sections 2.9.3 and 2.9.4).

ghost use Rattle.std.specs.Prelude.{IfSome};
ghost use Rattle.grasp_cbor.specs.Leading.{Leads};
ghost use Rattle.grasp_types.specs.Message.{verdict_item, IsVerdict};
ghost use Rattle.grasp_wire.specs.Direct.{EndsKind};

use crate::direct::scalars::read_text;
use grasp_cbor::{read_array_head, read_unsigned};
use grasp_types::Verdict;
use std::alloc::Global;

/// A verdict.
pub(crate) fn read_verdict(alloc: Global, bytes: &[u8]) -> Option<(Verdict, &[u8])>
    ensures leads { IfSome result (λ p. Leads (verdict_item p.0) bytes.now p.1.now) }
    ensures range { IfSome result (λ p. IsVerdict p.0) }
{
    let (count, rest) = read_array_head(bytes)?;
    let (kind, rest) = read_unsigned(rest)?;
    read_verdict_of(alloc, count, kind, rest)
}

fn read_verdict_of(alloc: Global, count: u64, kind: u64, bytes: &[u8]) -> Option<(Verdict, &[u8])>
    ensures ends { IfSome result (λ p. EndsKind count kind (verdict_item p.0) bytes.now p.1.now) }
    ensures range { IfSome result (λ p. IsVerdict p.0) }
{
    match kind {
        101 => read_accept(count, bytes),
        102 => read_decline(alloc, count, bytes),
        _ => None,
    }
}

fn read_accept(count: u64, bytes: &[u8]) -> Option<(Verdict, &[u8])>
    ensures ends { IfSome result (λ p. EndsKind count 101 (verdict_item p.0) bytes.now p.1.now) }
    ensures range { IfSome result (λ p. IsVerdict p.0) }
{
    if count != 1 {
        return None;
    }
    Some((Verdict::Accept, bytes))
}

fn read_decline(alloc: Global, count: u64, bytes: &[u8]) -> Option<(Verdict, &[u8])>
    ensures ends { IfSome result (λ p. EndsKind count 102 (verdict_item p.0) bytes.now p.1.now) }
    ensures range { IfSome result (λ p. IsVerdict p.0) }
{
    if count == 1 {
        return Some((Verdict::Decline(None), bytes));
    }
    if count != 2 {
        return None;
    }
    let (reason, rest) = read_text(alloc, bytes)?;
    Some((Verdict::Decline(Some(reason)), rest))
}
