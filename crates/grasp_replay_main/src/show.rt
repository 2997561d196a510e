//! `show`: the lines of the messages of a stream.
ghost use Rattle.std.specs.Prelude.{◌≡◌, ◌<◌, ◌≤◌, ◌+◌, ◌^◌, ◌∷◌, ◌++◌, ℕ, List, [], Option, Ok, option_map, length};
ghost use Rattle.std.specs.Prelude.{IfOk, IfErr, OnOk, OnErr, IsErrOf};
ghost use Rattle.grasp_io.specs.Faults.{Rose};
ghost use Rattle.grasp_io.specs.Known.{AppendsFront, Passes};
ghost use Rattle.grasp_text.specs.Line.{line_of};
ghost use Rattle.grasp_wire.specs.Cutter.{lasting};
ghost use Rattle.grasp_replay_main.specs.Step.{HasShown, Steps, IsInside, place_of, moved};
ghost use Rattle.grasp_replay_main.specs.Task.{ShowMakes};
ghost use Rattle.grasp_replay_main.specs.Written.{Writes, Begins, IsStop};
ghost use Rattle.grasp_replay_main.specs.declared.exit.Finding.TheVariants.{Cut};

use crate::exit::{Finding, Status};
use crate::unfinished::Unfinished;
use grasp_io::{Sink, WriteBuffer};
use grasp_quick::{Room, first_message, front_line};
use grasp_text::push_line;
use grasp_types::Message;
use grasp_wire::CutFault;
use std::alloc::Global;

/// What the next step of `show` came to.
enum Step {
    /// The line of a message of so many bytes was put into the buffer.
    Line(usize),
    /// What is left has this finding.
    Fault(Finding),
}

/// Writes the lines of the messages of the stream, of which each has at most `limit` bytes. After an `Err` a beginning
/// of the output is written.
pub fn show<K: Sink>(
    alloc: Global,
    input: &[u8],
    limit: u32,
    sink: &mut K,
) -> Result<Status, Unfinished>
    requires { 0 < limit }
    ensures done { IfOk result (λ ended. Writes (ShowMakes limit input.now) (K.written sink.old) (K.written sink.new) ended) }
    ensures begun { OnErr result (Begins (ShowMakes limit input.now) (K.written sink.old) (K.written sink.new)) }
    ensures stop { IfErr result IsStop }
    ensures fault { IsErrOf result Unfinished.WriteFault → Rose (K.faults sink.old) (K.faults sink.new) }
{
    let mut buffer = WriteBuffer::new();
    let mut line = String::new(alloc);
    let mut room = Room::new();
    let mut rest = input;
    while !rest.is_empty() {
        let before = (input.len() - rest.len()) as u64;
        let step = show_next(
            alloc,
            rest,
            before,
            limit,
            &mut room,
            &mut line,
            &mut buffer,
            sink,
        )?;
        match step {
            Step::Line(used) => rest = &rest[used..],
            Step::Fault(finding) => {
                buffer.flush(sink)?;
                return Ok(Status::Finding(finding));
            }
        }
    }
    buffer.flush(sink)?;
    Ok(Status::Ok)
}

/// Writes the line of the message that begins the rest, which so many bytes stand before.
fn show_next<K: Sink>(
    alloc: Global,
    rest: &[u8],
    before: u64,
    limit: u32,
    room: &mut Room,
    line: &mut String,
    buffer: &mut WriteBuffer,
    sink: &mut K,
) -> Result<Step, Unfinished>
    requires limit { 0 < limit }
    requires some { 0 < length rest.now }
    requires before { before + length rest.now < 2 ^ 64 }
    ensures step { (front : List ℕ) (start : Option (List ℕ)) → length front ≡ before → HasShown limit front start (K.written sink.old) buffer.old
        → Steps limit front rest.now start (K.written sink.new) buffer.new result }
    ensures inside { IfOk result (IsInside (length rest.now)) }
    ensures stop { IfErr result IsStop }
    ensures fault { IsErrOf result Unfinished.WriteFault → Rose (K.faults sink.old) (K.faults sink.new) }
    ensures never_falls { K.faults sink.old ≤ K.faults sink.new }
{
    match front_line(rest, limit, room) {
        Some(used) => {
            buffer.put(sink, room.bytes())?;
            Ok(Step::Line(used))
        }
        None => show_any(alloc, rest, before, limit, line, buffer, sink),
    }
}

/// The same for a message of any form, and for a fault.
fn show_any<K: Sink>(
    alloc: Global,
    rest: &[u8],
    before: u64,
    limit: u32,
    line: &mut String,
    buffer: &mut WriteBuffer,
    sink: &mut K,
) -> Result<Step, Unfinished>
    requires limit { 0 < limit }
    requires some { 0 < length rest.now }
    requires before { before + length rest.now < 2 ^ 64 }
    ensures step { (front : List ℕ) (start : Option (List ℕ)) → length front ≡ before → HasShown limit front start (K.written sink.old) buffer.old
        → Steps limit front rest.now start (K.written sink.new) buffer.new result }
    ensures inside { IfOk result (IsInside (length rest.now)) }
    ensures stop { IfErr result IsStop }
    ensures fault { IsErrOf result Unfinished.WriteFault → Rose (K.faults sink.old) (K.faults sink.new) }
    ensures never_falls { K.faults sink.old ≤ K.faults sink.new }
{
    match first_message(alloc, rest, limit) {
        Ok(Some((message, used))) => {
            write_line(alloc, &message, line, buffer, sink)?;
            Ok(Step::Line(used))
        }
        Ok(None) => {
            let at = before + rest.len() as u64;
            Ok(Step::Fault(Finding::Truncated { at }))
        }
        Err(fault) => match finding_behind(fault, before) {
            Some(finding) => Ok(Step::Fault(finding)),
            None => Err(Unfinished::OutOfMemory),
        },
    }
}

/// Writes the message's line and a line feed.
fn write_line<K: Sink>(
    alloc: Global,
    message: &Message,
    line: &mut String,
    buffer: &mut WriteBuffer,
    sink: &mut K,
) -> Result<(), Unfinished>
    ensures passed { OnOk result (Passes (K.written sink.old) (K.written sink.new) buffer.new (buffer.old ++ (line_of message.now ++ 10 ∷ []))) }
    ensures front { AppendsFront (K.written sink.old) (K.written sink.new) (buffer.old ++ (line_of message.now ++ 10 ∷ [])) }
    ensures stop { IfErr result IsStop }
    ensures fault { IsErrOf result Unfinished.WriteFault → Rose (K.faults sink.old) (K.faults sink.new) }
    ensures never_falls { K.faults sink.old ≤ K.faults sink.new }
{
    line.clear();
    push_line(alloc, line, message)?;
    line.push('\n')?;
    buffer.put(sink, line.as_bytes())?;
    Ok(())
}

/// The finding of a fault of a rest which so many bytes stand before, or `None` for want of memory.
fn finding_behind(fault: CutFault, before: u64) -> Option<Finding>
    requires { before + place_of fault < 2 ^ 64 }
    ensures { result ≡ option_map Cut (lasting (moved before fault)) }
{
    let moved = match fault {
        CutFault::Malformed { at } => CutFault::Malformed { at: before + at },
        CutFault::NotText { at } => CutFault::NotText { at: before + at },
        CutFault::TooDeep { at } => CutFault::TooDeep { at: before + at },
        CutFault::TooLong { at } => CutFault::TooLong { at: before + at },
        CutFault::NotMessage { at } => CutFault::NotMessage { at: before + at },
        CutFault::OutOfMemory => return None,
    };
    Some(Finding::Cut(moved))
}
