//! Writing the calls of visitors.

ghost use Rattle.std.specs.Prelude.{◌≡◌, ◌++◌, ◌∷◌, [], OnOk, OnErr, codes, decimal, string_bytes};
ghost use Rattle.grasp_cbor.specs.Extends.{Extends};
ghost use Rattle.grasp_types.specs.declared.call.Call.TheVariants.{RequestNegotiate, Synchronize};
ghost use Rattle.grasp_text.specs.Line.{text_word};
ghost use Rattle.grasp_text.specs.Words.{spaced};
ghost use Rattle.grasp_script.specs.Calls.{dry_word};
ghost use Rattle.grasp_control.specs.Requests.{control_call_words};

use grasp_cbor::{Chars, OutOfMemory};
use grasp_script::push_call;
use grasp_text::{push_address, push_locator, push_number, push_text, push_value, push_word};
use grasp_types::{Call, Locator, Value};
use std::alloc::Global;

/// Appends the words of a call, each behind a blank. A session is named by its number. After an `Err` a part of them may
/// have been appended.
#[tactic(auto, using(crate::proofs::Pushed::pushes))]
pub fn push_control_call(alloc: Global, out: &mut String, call: &Call) -> Result<(), OutOfMemory>
    ensures text { OnOk result (string_bytes out.new ≡ string_bytes out.old ++ spaced (control_call_words call.now)) }
    ensures err { OnErr result (Extends (string_bytes out.old) (string_bytes out.new)) }
{
    match call {
        Call::RequestNegotiate {
            name,
            value,
            loops,
            timeout,
            dry,
            peer,
        } => push_negotiation(alloc, out, name, value, *loops, *timeout, *dry, peer),
        Call::Synchronize {
            name,
            loops,
            timeout,
            peer,
        } => push_synchronize(alloc, out, name, *loops, *timeout, peer),
        Call::ExpireFlood { name, initiator } => {
            push_named(out, "expire", name)?;
            push_address(alloc, out, *initiator)
        }
        call => push_call(alloc, out, call),
    }
}

/// Appends a word and a name, each behind a blank.
#[tactic(auto, using(crate::proofs::Pushed::pushes))]
fn push_named(out: &mut String, word: &str, name: &Chars) -> Result<(), OutOfMemory>
    ensures text { OnOk result (string_bytes out.new ≡ string_bytes out.old ++ spaced (word.now ∷ text_word name.now ∷ [])) }
    ensures err { OnErr result (Extends (string_bytes out.old) (string_bytes out.new)) }
{
    push_word(out, word)?;
    push_text(out, name)
}

/// Appends a loop count and a number of milliseconds, each behind a blank.
#[tactic(auto, using(crate::proofs::Pushed::pushes))]
fn push_limits(out: &mut String, loops: u8, timeout: u32) -> Result<(), OutOfMemory>
    ensures text { OnOk result (string_bytes out.new ≡ string_bytes out.old ++ spaced (decimal loops ∷ decimal timeout ∷ [])) }
    ensures err { OnErr result (Extends (string_bytes out.old) (string_bytes out.new)) }
{
    push_number(out, u64::from(loops))?;
    push_number(out, u64::from(timeout))
}

/// Appends a word, a name, a loop count and a number of milliseconds, each behind a blank.
#[tactic(auto, using(crate::proofs::Pushed::pushes))]
fn push_limited(
    out: &mut String,
    word: &str,
    name: &Chars,
    loops: u8,
    timeout: u32,
) -> Result<(), OutOfMemory>
    ensures text { OnOk result
        (string_bytes out.new
        ≡ string_bytes out.old ++ spaced (word.now ∷ text_word name.now ∷ decimal loops ∷ decimal timeout ∷ [])) }
    ensures err { OnErr result (Extends (string_bytes out.old) (string_bytes out.new)) }
{
    push_named(out, word, name)?;
    push_limits(out, loops, timeout)
}

/// Appends a blank and whether a request is a dry run.
fn push_dry(out: &mut String, dry: bool) -> Result<(), OutOfMemory>
    ensures text { OnOk result (string_bytes out.new ≡ string_bytes out.old ++ spaced (dry_word dry ∷ [])) }
    ensures err { OnErr result (Extends (string_bytes out.old) (string_bytes out.new)) }
{
    if dry {
        push_word(out, "dry")
    } else {
        push_word(out, "wet")
    }
}

#[tactic(auto, using(crate::proofs::Pushed::pushes))]
fn push_negotiation(
    alloc: Global,
    out: &mut String,
    name: &Chars,
    value: &Value,
    loops: u8,
    timeout: u32,
    dry: bool,
    peer: &Locator,
) -> Result<(), OutOfMemory>
    ensures text { OnOk result
        (string_bytes out.new
        ≡ string_bytes out.old ++ spaced (control_call_words (RequestNegotiate name.now value.now loops timeout dry peer.now))) }
    ensures err { OnErr result (Extends (string_bytes out.old) (string_bytes out.new)) }
{
    push_named(out, "request", name)?;
    push_value(alloc, out, value)?;
    push_limits(out, loops, timeout)?;
    push_dry(out, dry)?;
    push_locator(alloc, out, peer)
}

#[tactic(auto, using(crate::proofs::Pushed::pushes))]
fn push_synchronize(
    alloc: Global,
    out: &mut String,
    name: &Chars,
    loops: u8,
    timeout: u32,
    peer: &Locator,
) -> Result<(), OutOfMemory>
    ensures text { OnOk result
        (string_bytes out.new
        ≡ string_bytes out.old ++ spaced (control_call_words (Synchronize name.now loops timeout peer.now))) }
    ensures err { OnErr result (Extends (string_bytes out.old) (string_bytes out.new)) }
{
    push_limited(out, "synchronize", name, loops, timeout)?;
    push_locator(alloc, out, peer)
}
