//! The lines that are written of what comes and what goes.

ghost use Rattle.std.specs.Prelude.{◌≡◌, ◌++◌, ◌∷◌, [], IfOk, OnOk, codes, decimal, string_bytes};
ghost use Rattle.grasp_text.specs.Line.{address_word, line_of, locator_words};
ghost use Rattle.grasp_text.specs.Words.{spaced};
ghost use Rattle.grasp_trace.specs.Lines.{line_text, datagram_words, IsDatagramLine, message_line, fault_line, opening_line, dial_line, closing_line};

use crate::watched::MOST_BYTES;
use grasp_cbor::OutOfMemory;
use grasp_text::{push_address, push_line, push_locator, push_number, push_word};
use grasp_types::{Address, Locator, Message};
use grasp_wire::{CutFault, OneFault, decode_one};
use std::alloc::Global;

/// The line of a datagram: its link, its neighbour there, and its message.
pub(crate) fn datagram(
    alloc: Global,
    what: &str,
    link: u8,
    neighbour: u8,
    bytes: &[u8],
) -> Result<String, OutOfMemory>
    ensures { IfOk result (λ t. IsDatagramLine what.now link neighbour bytes.now (string_bytes t)) }
{
    match decode_one(alloc, bytes, MOST_BYTES) {
        Ok(message) => told_datagram(alloc, what, link, neighbour, &message),
        Err(OneFault::Cut(CutFault::OutOfMemory)) => Err(OutOfMemory),
        Err(_) => other_datagram(alloc, what, link, neighbour, bytes.len() as u64),
    }
}

/// The line of a datagram that is this message.
#[tactic(auto, using(crate::proofs::Lining::line_pushed))]
fn told_datagram(
    alloc: Global,
    what: &str,
    link: u8,
    neighbour: u8,
    message: &Message,
) -> Result<String, OutOfMemory>
    ensures { IfOk result (λ t. string_bytes t ≡ line_text what.now (datagram_words link neighbour ++ line_of message.now ∷ [])) }
{
    let mut text = begun(alloc, what)?;
    push_told(alloc, &mut text, link, neighbour, message)?;
    text.push('\n')?;
    Ok(text)
}

/// The line of a datagram of so many bytes that are no message.
#[tactic(auto, using(crate::proofs::Lining::line_pushed))]
fn other_datagram(
    alloc: Global,
    what: &str,
    link: u8,
    neighbour: u8,
    count: u64,
) -> Result<String, OutOfMemory>
    ensures { IfOk result (λ t. string_bytes t ≡ line_text what.now
        (datagram_words link neighbour ++ codes "no message in" ∷ decimal count ∷ codes "bytes" ∷ [])) }
{
    let mut text = begun(alloc, what)?;
    push_other(&mut text, link, neighbour, count)?;
    text.push('\n')?;
    Ok(text)
}

/// The line of a message on a stream.
#[tactic(auto, using(crate::proofs::Lining::line_pushed))]
pub(crate) fn message(
    alloc: Global,
    what: &str,
    stream: u64,
    message: &Message,
) -> Result<String, OutOfMemory>
    ensures { IfOk result (λ t. string_bytes t ≡ message_line what.now stream message.now) }
{
    let mut text = begun(alloc, what)?;
    push_message(alloc, &mut text, stream, message)?;
    text.push('\n')?;
    Ok(text)
}

/// The line of bytes of a stream that are no message, at this place of its direction.
#[tactic(auto, using(crate::proofs::Lining::line_pushed))]
pub(crate) fn fault(
    alloc: Global,
    what: &str,
    stream: u64,
    place: u64,
) -> Result<String, OutOfMemory>
    ensures { IfOk result (λ t. string_bytes t ≡ fault_line what.now stream place) }
{
    let mut text = begun(alloc, what)?;
    push_fault(&mut text, stream, place)?;
    text.push('\n')?;
    Ok(text)
}

/// The line of a stream that a peer opened.
#[tactic(auto, using(crate::proofs::Lining::line_pushed))]
pub(crate) fn opening(alloc: Global, stream: u64, from: &Address) -> Result<String, OutOfMemory>
    ensures { IfOk result (λ t. string_bytes t ≡ opening_line stream from.now) }
{
    let mut text = begun(alloc, "received")?;
    push_opening(alloc, &mut text, stream, *from)?;
    text.push('\n')?;
    Ok(text)
}

/// The line of a stream that is dialled.
#[tactic(auto, using(crate::proofs::Lining::line_pushed))]
pub(crate) fn dial(
    alloc: Global,
    what: &str,
    stream: u64,
    to: &Locator,
) -> Result<String, OutOfMemory>
    ensures { IfOk result (λ t. string_bytes t ≡ dial_line what.now stream to.now) }
{
    let mut text = begun(alloc, what)?;
    push_dial(alloc, &mut text, stream, to)?;
    text.push('\n')?;
    Ok(text)
}

/// The line of a stream that ends.
#[tactic(auto, using(crate::proofs::Lining::line_pushed))]
pub(crate) fn closing(alloc: Global, what: &str, stream: u64) -> Result<String, OutOfMemory>
    ensures { IfOk result (λ t. string_bytes t ≡ closing_line what.now stream) }
{
    let mut text = begun(alloc, what)?;
    push_closing(&mut text, stream)?;
    text.push('\n')?;
    Ok(text)
}

/// The beginning of a line: what became of it.
fn begun(alloc: Global, what: &str) -> Result<String, OutOfMemory>
    ensures { IfOk result (λ t. string_bytes t ≡ what.now) }
{
    let mut text = String::new(alloc);
    text.push_str(what)?;
    Ok(text)
}

/// Appends the link of a datagram and its neighbour there.
#[tactic(auto, using(crate::proofs::Lining::pushes))]
fn push_datagram(out: &mut String, link: u8, neighbour: u8) -> Result<(), OutOfMemory>
    ensures { OnOk result (string_bytes out.new ≡ string_bytes out.old ++ spaced (datagram_words link neighbour)) }
{
    push_word(out, "datagram")?;
    push_number(out, u64::from(link))?;
    push_number(out, u64::from(neighbour))
}

/// Appends a blank and the line of a message.
fn push_text(alloc: Global, out: &mut String, message: &Message) -> Result<(), OutOfMemory>
    ensures { OnOk result (string_bytes out.new ≡ string_bytes out.old ++ spaced (line_of message.now ∷ [])) }
{
    out.push(' ')?;
    push_line(alloc, out, message)
}

/// Appends the words of a datagram that is this message.
#[tactic(auto, using(crate::proofs::Lining::pushes))]
fn push_told(
    alloc: Global,
    out: &mut String,
    link: u8,
    neighbour: u8,
    message: &Message,
) -> Result<(), OutOfMemory>
    ensures { OnOk result (string_bytes out.new ≡ string_bytes out.old ++ spaced (datagram_words link neighbour ++ line_of message.now ∷ [])) }
{
    push_datagram(out, link, neighbour)?;
    push_text(alloc, out, message)
}

/// Appends the words of a datagram of so many bytes that are no message.
#[tactic(auto, using(crate::proofs::Lining::pushes))]
fn push_other(out: &mut String, link: u8, neighbour: u8, count: u64) -> Result<(), OutOfMemory>
    ensures { OnOk result (string_bytes out.new ≡ string_bytes out.old ++ spaced
        (datagram_words link neighbour ++ codes "no message in" ∷ decimal count ∷ codes "bytes" ∷ [])) }
{
    push_datagram(out, link, neighbour)?;
    push_count(out, count)
}

/// Appends how many bytes there are that are no message.
#[tactic(auto, using(crate::proofs::Lining::pushes))]
fn push_count(out: &mut String, count: u64) -> Result<(), OutOfMemory>
    ensures { OnOk result (string_bytes out.new ≡ string_bytes out.old ++ spaced (codes "no message in" ∷ decimal count ∷ codes "bytes" ∷ [])) }
{
    push_word(out, "no message in")?;
    push_number(out, count)?;
    push_word(out, "bytes")
}

/// Appends the words of a message on a stream.
#[tactic(auto, using(crate::proofs::Lining::pushes))]
fn push_message(
    alloc: Global,
    out: &mut String,
    stream: u64,
    message: &Message,
) -> Result<(), OutOfMemory>
    ensures { OnOk result (string_bytes out.new ≡ string_bytes out.old ++ spaced (codes "message" ∷ decimal stream ∷ line_of message.now ∷ [])) }
{
    push_word(out, "message")?;
    push_number(out, stream)?;
    push_text(alloc, out, message)
}

/// Appends the words of bytes of a stream that are no message.
#[tactic(auto, using(crate::proofs::Lining::pushes))]
fn push_fault(out: &mut String, stream: u64, place: u64) -> Result<(), OutOfMemory>
    ensures { OnOk result (string_bytes out.new ≡ string_bytes out.old ++ spaced
        (codes "stream" ∷ decimal stream ∷ codes "no message at" ∷ decimal place ∷ [])) }
{
    push_word(out, "stream")?;
    push_number(out, stream)?;
    push_place(out, place)
}

/// Appends the place of bytes that are no message.
#[tactic(auto, using(crate::proofs::Lining::pushes))]
fn push_place(out: &mut String, place: u64) -> Result<(), OutOfMemory>
    ensures { OnOk result (string_bytes out.new ≡ string_bytes out.old ++ spaced (codes "no message at" ∷ decimal place ∷ [])) }
{
    push_word(out, "no message at")?;
    push_number(out, place)
}

/// Appends the words of a stream that a peer opened.
#[tactic(auto, using(crate::proofs::Lining::pushes))]
fn push_opening(
    alloc: Global,
    out: &mut String,
    stream: u64,
    from: Address,
) -> Result<(), OutOfMemory>
    ensures { OnOk result (string_bytes out.new ≡ string_bytes out.old ++ spaced (codes "opening" ∷ decimal stream ∷ address_word from ∷ [])) }
{
    push_word(out, "opening")?;
    push_number(out, stream)?;
    push_address(alloc, out, from)
}

/// Appends the words of a stream that is dialled.
#[tactic(auto, using(crate::proofs::Lining::pushes))]
fn push_dial(alloc: Global, out: &mut String, stream: u64, to: &Locator) -> Result<(), OutOfMemory>
    ensures { OnOk result (string_bytes out.new ≡ string_bytes out.old ++ spaced (codes "dial" ∷ decimal stream ∷ locator_words to.now)) }
{
    push_word(out, "dial")?;
    push_number(out, stream)?;
    push_locator(alloc, out, to)
}

/// Appends the words of a stream that ends.
#[tactic(auto, using(crate::proofs::Lining::pushes))]
fn push_closing(out: &mut String, stream: u64) -> Result<(), OutOfMemory>
    ensures { OnOk result (string_bytes out.new ≡ string_bytes out.old ++ spaced (codes "closing" ∷ decimal stream ∷ [])) }
{
    push_word(out, "closing")?;
    push_number(out, stream)
}
