//! Writing the record of a script while it runs.

ghost use Rattle.std.specs.Prelude.{◌≡◌, ◌≤◌, ◌++◌, OnOk, OnErr, IsErrOf, IfErr, []};
ghost use Rattle.grasp_io.specs.Faults.{Rose};
ghost use Rattle.grasp_io.specs.Known.{AppendsFront, Passes};
ghost use Rattle.grasp_model_audit.specs.RecordRuns.{BeginsRecordOf, IsRecordOf, IsStoppedRecordOf};
ghost use Rattle.grasp_model_audit.specs.Recording.{ended_lines};
ghost use Rattle.grasp_model_script.specs.Stops.{TextSendsTooMuch};
ghost use Rattle.grasp_recorder.specs.Lines.{CanRecord};
ghost use Rattle.grasp_recorder.specs.Passing.{PassesLine, RecordsLines, header_in};
ghost use Rattle.grasp_runner.specs.Passing.{IsReady};
ghost use Rattle.grasp_runner.specs.Written.{Begins, Writes};
ghost use Rattle.grasp_script.specs.Scripts.{IsScript};

use crate::fault::stop_fault;
use crate::header::write_header;
use crate::recorder::Recorder;
use grasp_cbor::Chars;
use grasp_io::{Sink, WriteBuffer};
use grasp_model_script::each_run_is_safe;
use grasp_runner::RunFault;
use grasp_script::{Line, Script};
use grasp_simulator::World;
use std::alloc::Global;

/// Runs the script that a text is, in a network of its plan, and writes its record: the lines of the header as they stand, and then
/// the record lines of each line behind it, each line ended by LF.
///
/// It is written in blocks while the script runs. With `TooMuch` the record of the lines before is written; after another `Err` a
/// beginning of the record is.
pub fn write_record<K: Sink>(
    alloc: Global,
    text: &[u8],
    script: &Script,
    sink: &mut K,
) -> Result<(), RunFault>
    requires { IsScript text.now script.now.plan script.now.lines }
    ensures done { OnOk result (Writes (IsRecordOf text.now) (K.written sink.old) (K.written sink.new)) }
    ensures begun { OnErr result (Begins (BeginsRecordOf text.now) (K.written sink.old) (K.written sink.new)) }
    ensures too_much { IsErrOf result RunFault.TooMuch → TextSendsTooMuch text.now }
    ensures stopped { IsErrOf result RunFault.TooMuch → Writes (IsStoppedRecordOf text.now) (K.written sink.old) (K.written sink.new) }
    ensures fault { IsErrOf result RunFault.WriteFault → Rose (K.faults sink.old) (K.faults sink.new) }
    ensures never_falls { K.faults sink.old ≤ K.faults sink.new }
{
    each_run_is_safe();
    let plan = script.plan().copy(alloc)?;
    let mut world = World::open(alloc, plan)?;
    run_script(alloc, &mut world, text, script, sink)
}

/// Runs the script in this network, and writes its record.
fn run_script<K: Sink>(
    alloc: Global,
    world: &mut World,
    text: &[u8],
    script: &Script,
    sink: &mut K,
) -> Result<(), RunFault>
    requires read { IsScript text.now script.now.plan script.now.lines }
    requires ready { IsReady world.old script.now }
    ensures done { OnOk result (Writes (IsRecordOf text.now) (K.written sink.old) (K.written sink.new)) }
    ensures begun { OnErr result (Begins (BeginsRecordOf text.now) (K.written sink.old) (K.written sink.new)) }
    ensures too_much { IsErrOf result RunFault.TooMuch → TextSendsTooMuch text.now }
    ensures stopped { IsErrOf result RunFault.TooMuch → Writes (IsStoppedRecordOf text.now) (K.written sink.old) (K.written sink.new) }
    ensures fault { IsErrOf result RunFault.WriteFault → Rose (K.faults sink.old) (K.faults sink.new) }
    ensures never_falls { K.faults sink.old ≤ K.faults sink.new }
{
    each_run_is_safe();
    let mut buffer = WriteBuffer::new();
    match write_lines(alloc, world, text, script, &mut buffer, sink) {
        Ok(()) => {
            buffer.flush(sink)?;
            Ok(())
        }
        Err(RunFault::TooMuch) => {
            buffer.flush(sink)?;
            Err(RunFault::TooMuch)
        }
        Err(RunFault::OutOfMemory) => Err(RunFault::OutOfMemory),
        Err(RunFault::WriteFault) => Err(RunFault::WriteFault),
    }
}

/// Puts the header into the buffer, runs the lines behind it, and puts their record lines into the buffer.
fn write_lines<K: Sink>(
    alloc: Global,
    world: &mut World,
    text: &[u8],
    script: &Script,
    buffer: &mut WriteBuffer,
    sink: &mut K,
) -> Result<(), RunFault>
    requires read { IsScript text.now script.now.plan script.now.lines }
    requires ready { IsReady world.old script.now }
    requires empty { buffer.old ≡ [] }
    ensures written { RecordsLines script.now.plan script.now.lines (K.written sink.old)
        (ended_lines (header_in text.now script.now.lines)) (K.written sink.new) buffer.new result }
    ensures fault { IsErrOf result RunFault.WriteFault → Rose (K.faults sink.old) (K.faults sink.new) }
    ensures never_falls { K.faults sink.old ≤ K.faults sink.new }
{
    match write_header(alloc, text, script, buffer, sink) {
        Ok(()) => record_lines(alloc, world, script, buffer, sink),
        Err(fault) => Err(fault),
    }
}

/// Runs the lines of the script, and puts their record lines into the buffer.
fn record_lines<K: Sink>(
    alloc: Global,
    world: &mut World,
    script: &Script,
    buffer: &mut WriteBuffer,
    sink: &mut K,
) -> Result<(), RunFault>
    requires { IsReady world.old script.now }
    ensures written { RecordsLines script.now.plan script.now.lines
        (K.written sink.old) buffer.old (K.written sink.new) buffer.new result }
    ensures fault { IsErrOf result RunFault.WriteFault → Rose (K.faults sink.old) (K.faults sink.new) }
    ensures never_falls { K.faults sink.old ≤ K.faults sink.new }
{
    let mut recorder = Recorder::new();
    for i in 0..script.len() {
        let Some(line) = script.line(i) else {
            unreachable!()
        };
        match write_line(alloc, &mut recorder, world, line, buffer, sink) {
            Ok(()) => {}
            Err(fault) => return Err(fault),
        }
    }
    Ok(())
}

/// Runs a line, and puts its record lines into the buffer.
fn write_line<K: Sink>(
    alloc: Global,
    recorder: &mut Recorder,
    world: &mut World,
    line: &Line,
    buffer: &mut WriteBuffer,
    sink: &mut K,
) -> Result<(), RunFault>
    requires { CanRecord recorder.old world.old line.now.act }
    ensures written { PassesLine recorder.old world.old recorder.new world.new line.now
        (K.written sink.old) buffer.old (K.written sink.new) buffer.new result }
    ensures fault { IsErrOf result RunFault.WriteFault → Rose (K.faults sink.old) (K.faults sink.new) }
    ensures never_falls { K.faults sink.old ≤ K.faults sink.new }
{
    match recorder.line(alloc, world, line) {
        Ok(written) => put_text(&written, buffer, sink),
        Err(stop) => Err(stop_fault(stop)),
    }
}

/// Puts a text into the buffer.
fn put_text<K: Sink>(text: &Chars, buffer: &mut WriteBuffer, sink: &mut K) -> Result<(), RunFault>
    ensures passed { OnOk result (Passes (K.written sink.old) (K.written sink.new) buffer.new (buffer.old ++ text.now)) }
    ensures front { AppendsFront (K.written sink.old) (K.written sink.new) (buffer.old ++ text.now) }
    ensures stop { IfErr result (λ fault. fault ≡ RunFault.WriteFault) }
    ensures fault { IsErrOf result RunFault.WriteFault → Rose (K.faults sink.old) (K.faults sink.new) }
    ensures never_falls { K.faults sink.old ≤ K.faults sink.new }
{
    buffer.put(sink, text.bytes())?;
    Ok(())
}
