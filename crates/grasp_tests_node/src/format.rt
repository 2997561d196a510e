//! Items, messages and lines by themselves.
ghost use Rattle.std.specs.Prelude.{◌<◌, IfOk};

use crate::answer::push_numbered;
use crate::fault::LineFault;
use crate::input::read_bytes;
use grasp_cbor::{Item, ItemFault, OutOfMemory, ReadItem, read_item, write_item};
use grasp_text::{
    TextFault, Words, line_of, message_of, number, push_bytes, push_number, push_word,
};
use grasp_types::Message;
use grasp_wire::{CutFault, Cutter, EncodeFault, OneFault, decode_one, encode};
use std::alloc::Global;

/// Takes a limit, which is at least 1.
fn read_limit(words: &mut Words<'_>) -> Result<u32, LineFault>
    ensures { IfOk result (λ limit. 0 < limit) }
{
    let limit = words.u32()?;
    if limit == 0 {
        return Err(LineFault::Bad);
    }
    Ok(limit)
}

/// Reads the item that begins the bytes, and appends its shortest encoding and, where bytes follow it, how many it takes, or
/// why there is none.
pub fn ask_item(alloc: Global, out: &mut String, words: &mut Words<'_>) -> Result<(), LineFault> {
    let limit = read_limit(words)?;
    let bytes = read_bytes(alloc, words)?;
    Ok(push_read(alloc, out, bytes.bytes(), limit)?)
}

/// Appends what item begins the bytes, or why there is none.
fn push_read(alloc: Global, out: &mut String, bytes: &[u8], limit: u32) -> Result<(), OutOfMemory>
    requires { 0 < limit }
{
    match read_item(alloc, bytes, u64::from(limit)) {
        Ok(ReadItem::Whole { item, used }) => {
            push_item(alloc, out, &item, bytes.len() as u64 > used, used)
        }
        Ok(ReadItem::Partial) => push_word(out, "partial"),
        Err(fault) => push_item_fault(out, fault),
    }
}

/// Appends the shortest encoding of an item, and how many bytes it takes, where that is asked for.
fn push_item(
    alloc: Global,
    out: &mut String,
    item: &Item,
    is_front: bool,
    used: u64,
) -> Result<(), OutOfMemory> {
    if item.depth() > 16 {
        return push_word(out, "deep");
    }
    let mut written = Vec::new(alloc);
    write_item(item, &mut written)?;
    push_bytes(alloc, out, written.as_slice())?;
    if is_front {
        push_number(out, used)
    } else {
        Ok(())
    }
}

/// Appends why there is no item.
fn push_item_fault(out: &mut String, fault: ItemFault) -> Result<(), OutOfMemory> {
    match fault {
        ItemFault::Malformed { at } => push_numbered(out, "malformed", at),
        ItemFault::NotText { at } => push_numbered(out, "nottext", at),
        ItemFault::TooDeep { at } => push_numbered(out, "toodeep", at),
        ItemFault::TooLong => push_word(out, "toolong"),
        ItemFault::OutOfMemory => Err(OutOfMemory),
    }
}

/// Reads the one message that the bytes are, and appends its line, or why there is none.
pub fn ask_message(
    alloc: Global,
    out: &mut String,
    words: &mut Words<'_>,
) -> Result<(), LineFault> {
    let limit = read_limit(words)?;
    let bytes = read_bytes(alloc, words)?;
    Ok(push_decoded(alloc, out, bytes.bytes(), limit)?)
}

/// Appends the line of the message that the bytes are, or why there is none.
fn push_decoded(
    alloc: Global,
    out: &mut String,
    bytes: &[u8],
    limit: u32,
) -> Result<(), OutOfMemory>
    requires { 0 < limit }
{
    match decode_one(alloc, bytes, limit) {
        Ok(message) => push_line(alloc, out, &message),
        Err(OneFault::Cut(fault)) => push_cut_fault(out, fault),
        Err(OneFault::Truncated { at }) => push_numbered(out, "truncated", at),
        Err(OneFault::Trailing { at }) => push_numbered(out, "trailing", at),
    }
}

/// Appends the line of a message.
fn push_line(alloc: Global, out: &mut String, message: &Message) -> Result<(), OutOfMemory> {
    let line = line_of(alloc, message)?;
    push_word(out, line.text())
}

/// Appends why a stream is cut no further.
fn push_cut_fault(out: &mut String, fault: CutFault) -> Result<(), OutOfMemory> {
    match fault {
        CutFault::Malformed { at } => push_numbered(out, "malformed", at),
        CutFault::NotText { at } => push_numbered(out, "nottext", at),
        CutFault::TooDeep { at } => push_numbered(out, "toodeep", at),
        CutFault::TooLong { at } => push_numbered(out, "toolong", at),
        CutFault::NotMessage { at } => push_numbered(out, "notmessage", at),
        CutFault::OutOfMemory => Err(OutOfMemory),
    }
}

/// Cuts a stream that comes in pieces. It appends the messages that are whole behind each piece, each with the count of bytes
/// that came, or the fault, and at the end how many bytes were taken and how many wait.
pub fn ask_stream(alloc: Global, out: &mut String, words: &mut Words<'_>) -> Result<(), LineFault> {
    let limit = read_limit(words)?;
    let size = read_limit(words)?;
    let bytes = read_bytes(alloc, words)?;
    let mut cutter = Cutter::new(alloc, limit);
    push_pieces(alloc, out, bytes.bytes(), size, &mut cutter)
}

/// Cuts bytes in pieces of this size, and appends what comes of it.
fn push_pieces(
    alloc: Global,
    out: &mut String,
    bytes: &[u8],
    size: u32,
    cutter: &mut Cutter,
) -> Result<(), LineFault>
    requires { 0 < size }
{
    for piece in bytes.chunks(size as usize) {
        push_piece(alloc, out, piece, cutter)?;
    }
    push_numbered(out, "taken", cutter.taken())?;
    push_numbered(out, "waiting", cutter.waiting())?;
    Ok(())
}

/// Puts a piece behind what came, and appends what is whole.
fn push_piece(
    alloc: Global,
    out: &mut String,
    piece: &[u8],
    cutter: &mut Cutter,
) -> Result<(), LineFault> {
    if cutter.fed() > u64::MAX - piece.len() as u64 {
        return Err(LineFault::Bad);
    }
    cutter.feed(piece)?;
    Ok(push_cut(alloc, out, cutter)?)
}

/// Appends the messages that are whole, each behind the count of bytes that came, or the fault.
fn push_cut(alloc: Global, out: &mut String, cutter: &mut Cutter) -> Result<(), OutOfMemory> {
    for _ in 0..cutter.waiting().saturating_add(1) {
        if !push_next(alloc, out, cutter)? {
            break;
        }
    }
    Ok(())
}

/// Appends the next message or the fault, and returns whether another message may come.
fn push_next(alloc: Global, out: &mut String, cutter: &mut Cutter) -> Result<bool, OutOfMemory> {
    match cutter.next() {
        Ok(Some(message)) => push_counted(alloc, out, cutter.fed(), &message),
        Ok(None) => Ok(false),
        Err(fault) => {
            push_cut_fault(out, fault)?;
            Ok(false)
        }
    }
}

/// Appends a count of bytes and the line of a message, and returns that another may come.
fn push_counted(
    alloc: Global,
    out: &mut String,
    count: u64,
    message: &Message,
) -> Result<bool, OutOfMemory> {
    push_number(out, count)?;
    push_line(alloc, out, message)?;
    Ok(true)
}

/// Reads a line, and appends the bytes of its message, or why there are none.
pub fn ask_line(alloc: Global, out: &mut String, rest: &str) -> Result<(), LineFault> {
    let Some((limit, line)) = rest.split_once(' ') else {
        return Err(LineFault::Bad);
    };
    match number(limit.as_bytes(), u64::from(u32::MAX)) {
        Some(limit) => Ok(push_packed(alloc, out, line.as_bytes(), limit as u32)?),
        None => Err(LineFault::Bad),
    }
}

/// Appends the bytes of the message of a line, or why there are none.
fn push_packed(
    alloc: Global,
    out: &mut String,
    line: &[u8],
    limit: u32,
) -> Result<(), OutOfMemory> {
    match message_of(alloc, line) {
        Ok(message) => push_encoded(alloc, out, &message, limit),
        Err(TextFault::BadText { at }) => push_numbered(out, "badtext", at),
        Err(TextFault::OutOfMemory) => Err(OutOfMemory),
    }
}

/// Appends the bytes of a message, where it fits.
fn push_encoded(
    alloc: Global,
    out: &mut String,
    message: &Message,
    limit: u32,
) -> Result<(), OutOfMemory> {
    let mut written = Vec::new(alloc);
    match encode(message, limit, &mut written) {
        Ok(()) => push_bytes(alloc, out, written.as_slice()),
        Err(EncodeFault::TooLong) => push_word(out, "toolong"),
        Err(EncodeFault::OutOfMemory) => Err(OutOfMemory),
    }
}
