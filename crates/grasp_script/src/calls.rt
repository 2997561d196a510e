//! Writing the calls of agents.

ghost use Rattle.std.specs.Prelude.{◌≡◌, ◌++◌, ◌∷◌, [], OnOk, OnErr, Bool, codes, decimal, string_bytes};
ghost use Rattle.grasp_cbor.specs.Extends.{Extends};
ghost use Rattle.grasp_types.specs.declared.call.Call.TheVariants.{Discover, RequestNegotiate, Synchronize, Flood, EndNegotiate};
ghost use Rattle.grasp_text.specs.Line.{or_dash, text_word, value_word};
ghost use Rattle.grasp_text.specs.Words.{spaced};
ghost use Rattle.grasp_script.specs.Calls.{kind_word, dry_word, peer_word, call_words};

use crate::nodes::{push_initiator, push_peer};
use grasp_cbor::{Chars, OutOfMemory};
use grasp_text::{push_number, push_optional_value, push_text, push_value, push_word};
use grasp_types::{Call, Handle, Kind, Locator, Value, Verdict};
use std::alloc::Global;

/// Appends the words of a call, each behind a blank. After an `Err` a part of them may have been appended.
///
/// A session is named by its number, and a node by its number. Where a peer or an initiator is no node of a network that
/// a script can describe, `-` stands in its place.
pub fn push_call(alloc: Global, out: &mut String, call: &Call) -> Result<(), OutOfMemory>
    ensures text { OnOk result (string_bytes out.new ≡ string_bytes out.old ++ spaced (call_words call.now)) }
    ensures err { OnErr result (Extends (string_bytes out.old) (string_bytes out.new)) }
{
    match call {
        Call::RegisterAsa { name } => push_named(out, "asa", name),
        Call::DeregisterAsa => push_word(out, "unasa"),
        Call::RegisterObjective { name, flags } => {
            push_counted(out, "objective", name, u64::from(flags.bits()))
        }
        Call::DeregisterObjective { name } => push_named(out, "unobjective", name),
        Call::Discover {
            name,
            kind,
            loops,
            timeout,
        } => push_discover(out, name, *kind, *loops, *timeout),
        Call::RequestNegotiate {
            name,
            value,
            loops,
            timeout,
            dry,
            peer,
        } => push_request(alloc, out, name, value, *loops, *timeout, *dry, peer),
        Call::ListenNegotiate { name } => push_named(out, "listen", name),
        Call::StopListenNegotiate { name } => push_named(out, "unlisten", name),
        Call::NegotiateStep { handle, value } => push_step(alloc, out, *handle, value),
        Call::NegotiateWait { handle, millis } => push_wait(out, *handle, *millis),
        Call::EndNegotiate { handle, verdict } => push_end(out, *handle, verdict),
        Call::SendInvalid { handle, detail } => push_invalid(alloc, out, *handle, detail),
        Call::Poll { handle } => push_session(out, "poll", *handle),
        Call::Synchronize {
            name,
            loops,
            timeout,
            peer,
        } => push_synchronize(out, name, *loops, *timeout, peer),
        Call::ListenSynchronize { name, value } => push_valued(alloc, out, "offer", name, value),
        Call::StopListenSynchronize { name } => push_named(out, "unoffer", name),
        Call::Flood {
            name,
            value,
            ttl,
            loops,
        } => push_flood(alloc, out, name, value, *ttl, *loops),
        Call::GetFlood { name } => push_named(out, "floods", name),
        Call::ExpireFlood { name, initiator } => {
            push_named(out, "expire", name)?;
            push_initiator(out, *initiator)
        }
    }
}

/// Appends a word and a name, each behind a blank.
#[tactic(auto, using(crate::proofs::Pushed::pushes))]
fn push_named(out: &mut String, word: &str, name: &Chars) -> Result<(), OutOfMemory>
    ensures text { OnOk result (string_bytes out.new ≡ string_bytes out.old ++ spaced (word.now ∷ text_word name.now ∷ [])) }
    ensures err { OnErr result (Extends (string_bytes out.old) (string_bytes out.new)) }
{
    push_word(out, word)?;
    push_text(out, name)
}

/// Appends a word, a name and a number, each behind a blank.
#[tactic(auto, using(crate::proofs::Pushed::pushes))]
fn push_counted(out: &mut String, word: &str, name: &Chars, n: u64) -> Result<(), OutOfMemory>
    ensures text { OnOk result (string_bytes out.new ≡ string_bytes out.old ++ spaced (word.now ∷ text_word name.now ∷ decimal n ∷ [])) }
    ensures err { OnErr result (Extends (string_bytes out.old) (string_bytes out.new)) }
{
    push_named(out, word, name)?;
    push_number(out, n)
}

/// Appends a word, a name and a value, each behind a blank.
#[tactic(auto, using(crate::proofs::Pushed::pushes))]
fn push_valued(
    alloc: Global,
    out: &mut String,
    word: &str,
    name: &Chars,
    value: &Value,
) -> Result<(), OutOfMemory>
    ensures text { OnOk result (string_bytes out.new ≡ string_bytes out.old ++ spaced (word.now ∷ text_word name.now ∷ value_word value.now ∷ [])) }
    ensures err { OnErr result (Extends (string_bytes out.old) (string_bytes out.new)) }
{
    push_named(out, word, name)?;
    push_value(alloc, out, value)
}

/// Appends a word and the number of a session, each behind a blank.
#[tactic(auto, using(crate::proofs::Pushed::pushes))]
fn push_session(out: &mut String, word: &str, handle: Handle) -> Result<(), OutOfMemory>
    ensures text { OnOk result (string_bytes out.new ≡ string_bytes out.old ++ spaced (word.now ∷ decimal handle.number ∷ [])) }
    ensures err { OnErr result (Extends (string_bytes out.old) (string_bytes out.new)) }
{
    push_word(out, word)?;
    push_number(out, handle.number)
}

/// Appends a blank and what an objective is searched for.
fn push_kind(out: &mut String, kind: Kind) -> Result<(), OutOfMemory>
    ensures text { OnOk result (string_bytes out.new ≡ string_bytes out.old ++ spaced (kind_word kind ∷ [])) }
    ensures err { OnErr result (Extends (string_bytes out.old) (string_bytes out.new)) }
{
    match kind {
        Kind::Negotiation => push_word(out, "neg"),
        Kind::Synchronization => push_word(out, "syn"),
    }
}

/// Appends a blank and whether a request is a dry run.
fn push_dry(out: &mut String, dry: bool) -> Result<(), OutOfMemory>
    ensures text { OnOk result (string_bytes out.new ≡ string_bytes out.old ++ spaced (dry_word dry ∷ [])) }
    ensures err { OnErr result (Extends (string_bytes out.old) (string_bytes out.new)) }
{
    if dry {
        push_word(out, "dry")
    } else {
        push_word(out, "wet")
    }
}

/// Appends a loop count and a number of milliseconds, each behind a blank.
#[tactic(auto, using(crate::proofs::Pushed::pushes))]
fn push_limits(out: &mut String, loops: u8, timeout: u32) -> Result<(), OutOfMemory>
    ensures text { OnOk result (string_bytes out.new ≡ string_bytes out.old ++ spaced (decimal loops ∷ decimal timeout ∷ [])) }
    ensures err { OnErr result (Extends (string_bytes out.old) (string_bytes out.new)) }
{
    push_number(out, u64::from(loops))?;
    push_number(out, u64::from(timeout))
}

/// Appends a word, a name, a loop count and a number of milliseconds, each behind a blank.
#[tactic(auto, using(crate::proofs::Pushed::pushes))]
fn push_limited(
    out: &mut String,
    word: &str,
    name: &Chars,
    loops: u8,
    timeout: u32,
) -> Result<(), OutOfMemory>
    ensures text { OnOk result
        (string_bytes out.new
        ≡ string_bytes out.old ++ spaced (word.now ∷ text_word name.now ∷ decimal loops ∷ decimal timeout ∷ [])) }
    ensures err { OnErr result (Extends (string_bytes out.old) (string_bytes out.new)) }
{
    push_named(out, word, name)?;
    push_limits(out, loops, timeout)
}

#[tactic(auto, using(crate::proofs::Pushed::pushes))]
fn push_discover(
    out: &mut String,
    name: &Chars,
    kind: Kind,
    loops: u8,
    timeout: u32,
) -> Result<(), OutOfMemory>
    ensures text { OnOk result (string_bytes out.new ≡ string_bytes out.old ++ spaced (call_words (Discover name.now kind loops timeout))) }
    ensures err { OnErr result (Extends (string_bytes out.old) (string_bytes out.new)) }
{
    push_named(out, "discover", name)?;
    push_kind(out, kind)?;
    push_limits(out, loops, timeout)
}

#[tactic(auto, using(crate::proofs::Pushed::pushes))]
fn push_request(
    alloc: Global,
    out: &mut String,
    name: &Chars,
    value: &Value,
    loops: u8,
    timeout: u32,
    dry: bool,
    peer: &Locator,
) -> Result<(), OutOfMemory>
    ensures text { OnOk result
        (string_bytes out.new
        ≡ string_bytes out.old ++ spaced (call_words (RequestNegotiate name.now value.now loops timeout dry peer.now))) }
    ensures err { OnErr result (Extends (string_bytes out.old) (string_bytes out.new)) }
{
    push_valued(alloc, out, "request", name, value)?;
    push_limits(out, loops, timeout)?;
    push_dry(out, dry)?;
    push_peer(out, peer)
}

#[tactic(auto, using(crate::proofs::Pushed::pushes))]
fn push_step(
    alloc: Global,
    out: &mut String,
    handle: Handle,
    value: &Value,
) -> Result<(), OutOfMemory>
    ensures text { OnOk result
        (string_bytes out.new
        ≡ string_bytes out.old ++ spaced (codes "step" ∷ decimal handle.number ∷ value_word value.now ∷ [])) }
    ensures err { OnErr result (Extends (string_bytes out.old) (string_bytes out.new)) }
{
    push_session(out, "step", handle)?;
    push_value(alloc, out, value)
}

#[tactic(auto, using(crate::proofs::Pushed::pushes))]
fn push_wait(out: &mut String, handle: Handle, millis: u32) -> Result<(), OutOfMemory>
    ensures text { OnOk result (string_bytes out.new ≡ string_bytes out.old ++ spaced (codes "wait" ∷ decimal handle.number ∷ decimal millis ∷ [])) }
    ensures err { OnErr result (Extends (string_bytes out.old) (string_bytes out.new)) }
{
    push_session(out, "wait", handle)?;
    push_number(out, u64::from(millis))
}

#[tactic(auto, using(crate::proofs::Pushed::pushes))]
fn push_end(out: &mut String, handle: Handle, verdict: &Verdict) -> Result<(), OutOfMemory>
    ensures text { OnOk result (string_bytes out.new ≡ string_bytes out.old ++ spaced (call_words (EndNegotiate handle verdict.now))) }
    ensures err { OnErr result (Extends (string_bytes out.old) (string_bytes out.new)) }
{
    match verdict {
        Verdict::Accept => push_session(out, "accept", handle),
        Verdict::Decline(None) => push_session(out, "decline", handle),
        Verdict::Decline(Some(reason)) => {
            push_session(out, "decline", handle)?;
            push_text(out, reason)
        }
    }
}

#[tactic(auto, using(crate::proofs::Pushed::pushes))]
fn push_invalid(
    alloc: Global,
    out: &mut String,
    handle: Handle,
    detail: &Option<Value>,
) -> Result<(), OutOfMemory>
    ensures text { OnOk result
        (string_bytes out.new
        ≡ string_bytes out.old ++ spaced (codes "invalid" ∷ decimal handle.number ∷ or_dash value_word detail.now ∷ [])) }
    ensures err { OnErr result (Extends (string_bytes out.old) (string_bytes out.new)) }
{
    push_session(out, "invalid", handle)?;
    push_optional_value(alloc, out, detail)
}

#[tactic(auto, using(crate::proofs::Pushed::pushes))]
fn push_synchronize(
    out: &mut String,
    name: &Chars,
    loops: u8,
    timeout: u32,
    peer: &Locator,
) -> Result<(), OutOfMemory>
    ensures text { OnOk result (string_bytes out.new ≡ string_bytes out.old ++ spaced (call_words (Synchronize name.now loops timeout peer.now))) }
    ensures err { OnErr result (Extends (string_bytes out.old) (string_bytes out.new)) }
{
    push_limited(out, "synchronize", name, loops, timeout)?;
    push_peer(out, peer)
}

#[tactic(auto, using(crate::proofs::Pushed::pushes))]
fn push_flood(
    alloc: Global,
    out: &mut String,
    name: &Chars,
    value: &Value,
    ttl: u32,
    loops: u8,
) -> Result<(), OutOfMemory>
    ensures text { OnOk result (string_bytes out.new ≡ string_bytes out.old ++ spaced (call_words (Flood name.now value.now ttl loops))) }
    ensures err { OnErr result (Extends (string_bytes out.old) (string_bytes out.new)) }
{
    push_valued(alloc, out, "flood", name, value)?;
    push_number(out, u64::from(ttl))?;
    push_number(out, u64::from(loops))
}
