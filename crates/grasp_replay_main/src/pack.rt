//! `pack`: the messages of lines.
ghost use Rattle.std.specs.Prelude.{◌≡◌, ◌<◌, ◌≤◌, ◌++◌, ◌↔◌, length, Err, IfOk, IfErr, OnOk, OnErr, IsErrOf};
ghost use Rattle.grasp_cbor.specs.Shortest.{shortest};
ghost use Rattle.grasp_types.specs.Message.{item_of};
ghost use Rattle.grasp_wire.specs.Wire.{IsWireForm};
ghost use Rattle.grasp_wire.specs.declared.fault.EncodeFault.TheVariants.{TooLong};
ghost use Rattle.grasp_io.specs.Faults.{Rose};
ghost use Rattle.grasp_replay_main.specs.Pack.{PacksLine};
ghost use Rattle.grasp_replay_main.specs.Task.{PackMakes};
ghost use Rattle.grasp_replay_main.specs.Written.{Writes, Begins, IsStop};

use crate::exit::{Finding, Status};
use crate::lines::split_line;
use crate::unfinished::Unfinished;
use grasp_cbor::OutOfMemory;
use grasp_io::{Sink, WriteBuffer};
use grasp_quick::{Room, packed_line};
use grasp_text::{TextFault, message_of};
use grasp_types::Message;
use grasp_wire::{EncodeFault, encode};
use std::alloc::Global;

/// Writes the shortest encodings of the messages whose lines the input is. Each has at most `limit` bytes. After an
/// `Err` a beginning of the output is written.
pub fn pack<K: Sink>(
    alloc: Global,
    input: &[u8],
    limit: u32,
    sink: &mut K,
) -> Result<Status, Unfinished>
    ensures done { IfOk result (λ ended. Writes (PackMakes limit input.now) (K.written sink.old) (K.written sink.new) ended) }
    ensures begun { OnErr result (Begins (PackMakes limit input.now) (K.written sink.old) (K.written sink.new)) }
    ensures stop { IfErr result IsStop }
    ensures fault { IsErrOf result Unfinished.WriteFault → Rose (K.faults sink.old) (K.faults sink.new) }
{
    let mut buffer = WriteBuffer::new();
    let mut bytes = Vec::new(alloc);
    let mut room = Room::new();
    let mut rest = input;
    let mut line = 0;
    while !rest.is_empty() {
        let (text, after) = split_line(rest);
        line += 1;
        rest = after;
        if let Some(()) = packed_line(text, limit, &mut room) {
            buffer.put(sink, room.bytes())?;
            continue;
        }
        bytes.clear();
        if let Some(finding) = pack_line(alloc, &mut bytes, text, line, limit)? {
            buffer.flush(sink)?;
            return Ok(Status::Finding(finding));
        }
        buffer.put(sink, &bytes)?;
    }
    buffer.flush(sink)?;
    Ok(Status::Ok)
}

/// Appends the message of this line, which has this number, or tells why it can't.
fn pack_line(
    alloc: Global,
    output: &mut Vec<u8>,
    text: &[u8],
    line: u64,
    limit: u32,
) -> Result<Option<Finding>, OutOfMemory>
    ensures { IfOk result (λ finding. PacksLine limit text.now line output.old.items output.new.items finding) }
{
    match message_of(alloc, text) {
        Ok(message) => match pack_message(message, limit, output) {
            Ok(()) => Ok(None),
            Err(EncodeFault::TooLong) => Ok(Some(Finding::TooLong { line })),
            Err(EncodeFault::OutOfMemory) => Err(OutOfMemory),
        },
        Err(TextFault::BadText { at }) => Ok(Some(Finding::BadText { line, at })),
        Err(TextFault::OutOfMemory) => Err(OutOfMemory),
    }
}

/// Appends the shortest encoding of the message, where it has at most `limit` bytes. After an `Err` the vector is as
/// before.
fn pack_message(message: Message, limit: u32, output: &mut Vec<u8>) -> Result<(), EncodeFault>
    ensures ok { OnOk result (output.new.items ≡ output.old.items ++ shortest (item_of message)) }
    ensures form { OnOk result (IsWireForm message (shortest (item_of message)) limit) }
    ensures too_long { (result ≡ Err TooLong) ↔ (limit < length (shortest (item_of message))) }
    ensures err { OnErr result (output.new.items ≡ output.old.items) }
{
    encode(&message, limit, output)
}
