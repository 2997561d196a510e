//! Writing the line of a message, word by word.

ghost use Rattle.std.specs.Prelude.{◌≡◌, ◌++◌, ◌∷◌, [], OnOk, OnErr, IfOk, IfSome, ◌<◌, ◌^◌, decimal, string_bytes};
ghost use Rattle.grasp_cbor.specs.Extends.{Extends};
ghost use Rattle.grasp_types.specs.Address.{IsAddress, IsLocator};
ghost use Rattle.grasp_types.specs.Message.{IsMessage, IsVerdict, AreLocators, IsAnswer, AreFloodParts, IsFloodPart};
ghost use Rattle.grasp_types.specs.Objective.{IsObjective, IsValue};
ghost use Rattle.grasp_text.specs.Line.{proto_word, address_word, or_dash, value_word, locator_words, all_locator_words, objective_words};
ghost use Rattle.grasp_text.specs.Line.{optional_objective_words, verdict_words, answer_words, locator_or_none, flood_part_words};
ghost use Rattle.grasp_text.specs.Line.{all_flood_part_words, line_of, IsLineOf};
ghost use Rattle.grasp_text.specs.Words.{spaced};
ghost use Rattle.grasp_text.specs.Writing.{line_name, words_behind_name};

use crate::hexes::{push_address, push_v4, push_v6};
use crate::numbers::push_number;
use crate::texts::push_text;
use crate::values::push_value;
use grasp_cbor::{Chars, OutOfMemory};
use grasp_types::{
    Address, Answer, FloodPart, FloodParts, Locator, Locators, Message, Objective, Proto, Value,
    Verdict,
};
use std::alloc::Global;

/// Appends a blank and a word. After an `Err` a part of them may have been appended.
pub fn push_word(out: &mut String, word: &str) -> Result<(), OutOfMemory>
    ensures text { OnOk result (string_bytes out.new ≡ string_bytes out.old ++ spaced (word.now ∷ [])) }
    ensures err { OnErr result (Extends (string_bytes out.old) (string_bytes out.new)) }
{
    out.push(' ')?;
    out.push_str(word)?;
    Ok(())
}

/// Appends a blank and a protocol.
fn push_proto(out: &mut String, proto: Proto) -> Result<(), OutOfMemory>
    ensures text { OnOk result (string_bytes out.new ≡ string_bytes out.old ++ spaced (proto_word proto ∷ [])) }
    ensures err { OnErr result (Extends (string_bytes out.old) (string_bytes out.new)) }
{
    match proto {
        Proto::Tcp => push_word(out, "tcp"),
        Proto::Udp => push_word(out, "udp"),
    }
}

/// Appends a blank, and a protocol or `-`.
fn push_optional_proto(out: &mut String, proto: Option<Proto>) -> Result<(), OutOfMemory>
    ensures text { OnOk result (string_bytes out.new ≡ string_bytes out.old ++ spaced (or_dash proto_word proto ∷ [])) }
    ensures err { OnErr result (Extends (string_bytes out.old) (string_bytes out.new)) }
{
    match proto {
        Some(proto) => push_proto(out, proto),
        None => push_word(out, "-"),
    }
}

/// Appends a blank, and a port or `-`.
fn push_optional_port(out: &mut String, port: Option<u16>) -> Result<(), OutOfMemory>
    ensures text { OnOk result (string_bytes out.new ≡ string_bytes out.old ++ spaced (or_dash decimal port ∷ [])) }
    ensures ranges { OnOk result (IfSome port (λ p. p < 2 ^ 16)) }
    ensures err { OnErr result (Extends (string_bytes out.old) (string_bytes out.new)) }
{
    match port {
        Some(port) => push_number(out, u64::from(port)),
        None => push_word(out, "-"),
    }
}

/// Appends a blank, and a value or `-`. After an `Err` a part of them may have been appended.
pub fn push_optional_value(
    alloc: Global,
    out: &mut String,
    value: &Option<Value>,
) -> Result<(), OutOfMemory>
    ensures text { OnOk result (string_bytes out.new ≡ string_bytes out.old ++ spaced (or_dash value_word value.now ∷ [])) }
    ensures ranges { OnOk result (IfSome value.now IsValue) }
    ensures err { OnErr result (Extends (string_bytes out.old) (string_bytes out.new)) }
{
    match value {
        Some(value) => push_value(alloc, out, value),
        None => push_word(out, "-"),
    }
}

/// Appends the last two words of a locator, each behind a blank.
#[tactic(auto, using(crate::proofs::Pushed::pushes))]
fn push_place(out: &mut String, proto: Proto, port: u16) -> Result<(), OutOfMemory>
    ensures text { OnOk result (string_bytes out.new ≡ string_bytes out.old ++ spaced (proto_word proto ∷ decimal port ∷ [])) }
    ensures err { OnErr result (Extends (string_bytes out.old) (string_bytes out.new)) }
{
    push_proto(out, proto)?;
    push_number(out, u64::from(port))
}

/// Appends the words of a locator, each behind a blank. After an `Err` a part of them may have been appended.
#[tactic(auto, using(crate::proofs::Pushed::pushes))]
pub fn push_locator(alloc: Global, out: &mut String, locator: &Locator) -> Result<(), OutOfMemory>
    ensures text { OnOk result (string_bytes out.new ≡ string_bytes out.old ++ spaced (locator_words locator.now)) }
    ensures ranges { OnOk result (IsLocator locator.now) }
    ensures err { OnErr result (Extends (string_bytes out.old) (string_bytes out.new)) }
{
    match locator {
        Locator::V6 {
            address,
            proto,
            port,
        } => {
            push_word(out, "v6")?;
            push_v6(alloc, out, *address)?;
            push_place(out, *proto, *port)
        }
        Locator::V4 {
            address,
            proto,
            port,
        } => {
            push_word(out, "v4")?;
            push_v4(alloc, out, *address)?;
            push_place(out, *proto, *port)
        }
        Locator::Fqdn { name, proto, port } => {
            push_word(out, "fqdn")?;
            push_text(out, name)?;
            push_place(out, *proto, *port)
        }
        Locator::Uri { text, proto, port } => {
            push_word(out, "uri")?;
            push_text(out, text)?;
            push_optional_proto(out, *proto)?;
            push_optional_port(out, *port)
        }
    }
}

/// Appends the words of an objective, each behind a blank. After an `Err` a part of them may have
/// been appended.
#[tactic(auto, using(crate::proofs::Pushed::pushes))]
pub fn push_objective(
    alloc: Global,
    out: &mut String,
    objective: &Objective,
) -> Result<(), OutOfMemory>
    ensures text { OnOk result (string_bytes out.new ≡ string_bytes out.old ++ spaced (objective_words objective.now)) }
    ensures ranges { OnOk result (IsObjective objective.now) }
    ensures err { OnErr result (Extends (string_bytes out.old) (string_bytes out.new)) }
{
    push_word(out, "obj")?;
    push_text(out, &objective.name)?;
    push_number(out, u64::from(objective.flags.bits()))?;
    push_number(out, u64::from(objective.loops))?;
    push_optional_value(alloc, out, &objective.value)
}

/// Appends the words of the locators, each behind a blank.
fn push_locators(alloc: Global, out: &mut String, locators: &Locators) -> Result<(), OutOfMemory>
    ensures text { OnOk result (string_bytes out.new ≡ string_bytes out.old ++ spaced (all_locator_words locators.now)) }
    ensures ranges { OnOk result (AreLocators locators.now) }
    ensures err { OnErr result (Extends (string_bytes out.old) (string_bytes out.new)) }
{
    for locator in locators.slice() {
        push_locator(alloc, out, locator)?;
    }
    Ok(())
}

/// Appends `locators` or `divert`, and the words of the locators.
#[tactic(auto, using(crate::proofs::Pushed::pushes))]
fn push_answer(alloc: Global, out: &mut String, answer: &Answer) -> Result<(), OutOfMemory>
    ensures text { OnOk result (string_bytes out.new ≡ string_bytes out.old ++ spaced (answer_words answer.now)) }
    ensures ranges { OnOk result (IsAnswer answer.now) }
    ensures err { OnErr result (Extends (string_bytes out.old) (string_bytes out.new)) }
{
    match answer {
        Answer::Locators(locators) => {
            push_word(out, "locators")?;
            push_locators(alloc, out, locators)
        }
        Answer::Divert(locators) => {
            push_word(out, "divert")?;
            push_locators(alloc, out, locators)
        }
    }
}

/// Appends the words of an objective, where there is one.
fn push_optional_objective(
    alloc: Global,
    out: &mut String,
    objective: &Option<Objective>,
) -> Result<(), OutOfMemory>
    ensures text { OnOk result (string_bytes out.new ≡ string_bytes out.old ++ spaced (optional_objective_words objective.now)) }
    ensures ranges { OnOk result (IfSome objective.now IsObjective) }
    ensures err { OnErr result (Extends (string_bytes out.old) (string_bytes out.new)) }
{
    match objective {
        Some(objective) => push_objective(alloc, out, objective),
        None => Ok(()),
    }
}

/// Appends the words of how a negotiation ends.
#[tactic(auto, using(crate::proofs::Pushed::pushes))]
fn push_verdict(out: &mut String, verdict: &Verdict) -> Result<(), OutOfMemory>
    ensures text { OnOk result (string_bytes out.new ≡ string_bytes out.old ++ spaced (verdict_words verdict.now)) }
    ensures ranges { OnOk result (IsVerdict verdict.now) }
    ensures err { OnErr result (Extends (string_bytes out.old) (string_bytes out.new)) }
{
    match verdict {
        Verdict::Accept => push_word(out, "accept"),
        Verdict::Decline(None) => push_word(out, "decline"),
        Verdict::Decline(Some(reason)) => {
            push_word(out, "decline")?;
            push_text(out, reason)
        }
    }
}

/// Appends the words of a locator, or `none`. After an `Err` a part of them may have been appended.
pub fn push_optional_locator(
    alloc: Global,
    out: &mut String,
    locator: &Option<Locator>,
) -> Result<(), OutOfMemory>
    ensures text { OnOk result (string_bytes out.new ≡ string_bytes out.old ++ spaced (locator_or_none locator.now)) }
    ensures ranges { OnOk result (IfSome locator.now IsLocator) }
    ensures err { OnErr result (Extends (string_bytes out.old) (string_bytes out.new)) }
{
    match locator {
        Some(locator) => push_locator(alloc, out, locator),
        None => push_word(out, "none"),
    }
}

/// Appends the words of a part of a flood.
#[tactic(auto, using(crate::proofs::Pushed::pushes))]
fn push_flood_part(alloc: Global, out: &mut String, part: &FloodPart) -> Result<(), OutOfMemory>
    ensures text { OnOk result (string_bytes out.new ≡ string_bytes out.old ++ spaced (flood_part_words part.now)) }
    ensures ranges { OnOk result (IsFloodPart part.now) }
    ensures err { OnErr result (Extends (string_bytes out.old) (string_bytes out.new)) }
{
    push_objective(alloc, out, &part.objective)?;
    push_optional_locator(alloc, out, &part.locator)
}

/// Appends the words of the parts of a flood.
fn push_flood_parts(alloc: Global, out: &mut String, parts: &FloodParts) -> Result<(), OutOfMemory>
    ensures text { OnOk result (string_bytes out.new ≡ string_bytes out.old ++ spaced (all_flood_part_words parts.now)) }
    ensures ranges { OnOk result (AreFloodParts parts.now) }
    ensures err { OnErr result (Extends (string_bytes out.old) (string_bytes out.new)) }
{
    for part in parts.slice() {
        push_flood_part(alloc, out, part)?;
    }
    Ok(())
}

/// Appends the words of a session and an objective.
#[tactic(auto, using(crate::proofs::Pushed::pushes))]
fn push_session_objective(
    alloc: Global,
    out: &mut String,
    session: u32,
    objective: &Objective,
) -> Result<(), OutOfMemory>
    ensures text { OnOk result (string_bytes out.new ≡ string_bytes out.old ++ spaced (decimal session ∷ objective_words objective.now)) }
    ensures session { session < 2 ^ 32 }
    ensures ranges { OnOk result (IsObjective objective.now) }
    ensures err { OnErr result (Extends (string_bytes out.old) (string_bytes out.new)) }
{
    push_number(out, u64::from(session))?;
    push_objective(alloc, out, objective)
}

/// Appends a session and an address.
#[tactic(auto, using(crate::proofs::Pushed::pushes))]
fn push_session_initiator(
    alloc: Global,
    out: &mut String,
    session: u32,
    initiator: Address,
) -> Result<(), OutOfMemory>
    ensures text { OnOk result (string_bytes out.new ≡ string_bytes out.old ++ spaced (decimal session ∷ address_word initiator ∷ [])) }
    ensures session { session < 2 ^ 32 }
    ensures initiator { OnOk result (IsAddress initiator) }
    ensures err { OnErr result (Extends (string_bytes out.old) (string_bytes out.new)) }
{
    push_number(out, u64::from(session))?;
    push_address(alloc, out, initiator)
}

/// The name of a message's line.
fn name_of(message: &Message) -> &'static str
    ensures { result.now ≡ line_name message.now }
{
    match message {
        Message::Noop => "noop",
        Message::Discovery { .. } => "discovery",
        Message::Response { .. } => "response",
        Message::ReqNeg { .. } => "request-neg",
        Message::ReqSyn { .. } => "request-syn",
        Message::Negotiate { .. } => "negotiate",
        Message::End { .. } => "end",
        Message::Wait { .. } => "wait",
        Message::Synch { .. } => "synch",
        Message::Flood { .. } => "flood",
        Message::Invalid { .. } => "invalid",
    }
}

/// Appends the words behind a message's name.
#[tactic(auto, using(crate::proofs::Pushed::pushes))]
fn push_behind_name(alloc: Global, out: &mut String, message: &Message) -> Result<(), OutOfMemory>
    ensures text { OnOk result (string_bytes out.new ≡ string_bytes out.old ++ spaced (words_behind_name message.now)) }
    ensures ranges { OnOk result (IsMessage message.now) }
    ensures err { OnErr result (Extends (string_bytes out.old) (string_bytes out.new)) }
{
    match message {
        Message::Noop => Ok(()),
        Message::Discovery {
            session,
            initiator,
            objective,
        } => {
            push_session_initiator(alloc, out, *session, *initiator)?;
            push_objective(alloc, out, objective)
        }
        Message::Response {
            session,
            initiator,
            ttl,
            answer,
            objective,
        } => {
            push_session_initiator(alloc, out, *session, *initiator)?;
            push_number(out, u64::from(*ttl))?;
            push_answer(alloc, out, answer)?;
            push_optional_objective(alloc, out, objective)
        }
        Message::ReqNeg { session, objective }
        | Message::ReqSyn { session, objective }
        | Message::Negotiate { session, objective }
        | Message::Synch { session, objective } => {
            push_session_objective(alloc, out, *session, objective)
        }
        Message::End { session, verdict } => {
            push_number(out, u64::from(*session))?;
            push_verdict(out, verdict)
        }
        Message::Wait { session, millis } => {
            push_number(out, u64::from(*session))?;
            push_number(out, u64::from(*millis))
        }
        Message::Flood {
            session,
            initiator,
            ttl,
            parts,
        } => {
            push_session_initiator(alloc, out, *session, *initiator)?;
            push_number(out, u64::from(*ttl))?;
            push_flood_parts(alloc, out, parts)
        }
        Message::Invalid { session, detail } => {
            push_number(out, u64::from(*session))?;
            push_optional_value(alloc, out, detail)
        }
    }
}

/// Appends the line of a message, without a line end. After an `Err` a part of it may have been appended.
#[tactic(auto, using(crate::proofs::Pushed::pushes))]
pub fn push_line(alloc: Global, out: &mut String, message: &Message) -> Result<(), OutOfMemory>
    ensures text { OnOk result (string_bytes out.new ≡ string_bytes out.old ++ line_of message.now) }
    ensures ranges { OnOk result (IsMessage message.now) }
    ensures err { OnErr result (Extends (string_bytes out.old) (string_bytes out.new)) }
{
    out.push_str(name_of(message))?;
    push_behind_name(alloc, out, message)
}

/// The line of a message, without a line end.
pub fn line_of(alloc: Global, message: &Message) -> Result<Chars, OutOfMemory>
    ensures { IfOk result (λ line. IsLineOf line message.now) }
{
    let mut out = String::new(alloc);
    push_line(alloc, &mut out, message)?;
    Chars::of(alloc, out.as_str())
}
