//! Writing the reports of a script of a network of doubters, while it runs.

ghost use Rattle.std.specs.Prelude.{◌≡◌, ◌≤◌, ◌++◌, ◌∷◌, [], OnOk, OnErr, IfErr, IsErrOf};
ghost use Rattle.grasp_io.specs.Faults.{Rose};
ghost use Rattle.grasp_io.specs.Known.{AppendsFront, Passes};
ghost use Rattle.grasp_runner.specs.Scripts.{fault_of};
ghost use Rattle.grasp_runner.specs.Written.{Writes, Begins};
ghost use Rattle.grasp_runner_doubts.specs.Lines.{CanRunDoubt};
ghost use Rattle.grasp_runner_doubts.specs.Passing.{PassesLine, IsReady, WritesLines};
ghost use Rattle.grasp_model_script_doubts.specs.ScriptRuns.{DoubtsSendTooMuch, IsDoubtBegunText, IsDoubtRunText, IsDoubtStoppedText};
ghost use Rattle.grasp_runner_doubts.specs.Scripts.{IsDoubtRead};

use crate::lines::run_doubt_line;
use grasp_cbor::Chars;
use grasp_doubts::DoubtWorld;
use grasp_io::{Sink, WriteBuffer};
use grasp_model_network::WorldStop;
use grasp_model_script_doubts::each_doubt_run_is_safe;
use grasp_runner::RunFault;
use grasp_script_doubts::{DoubtLine, DoubtScript};
use std::alloc::Global;

/// Runs the lines of a script in order, in a network of its plan in which each node has a doubter, and writes the report of each, ended by
/// LF.
///
/// It is written in blocks while the script runs. With `TooMuch` the reports of the lines before are written; after another
/// `Err` a beginning of the reports is.
pub fn write_doubt_reports<K: Sink>(
    alloc: Global,
    script: &DoubtScript,
    sink: &mut K,
) -> Result<(), RunFault>
    requires { IsDoubtRead script.now }
    ensures done { OnOk result (Writes (IsDoubtRunText script.now.plan script.now.lines) (K.written sink.old) (K.written sink.new)) }
    ensures begun { OnErr result (Begins (IsDoubtBegunText script.now.plan script.now.lines) (K.written sink.old) (K.written sink.new)) }
    ensures too_much { IsErrOf result RunFault.TooMuch → DoubtsSendTooMuch script.now.plan script.now.lines }
    ensures stopped { IsErrOf result RunFault.TooMuch
        → Writes (IsDoubtStoppedText script.now.plan script.now.lines) (K.written sink.old) (K.written sink.new) }
    ensures fault { IsErrOf result RunFault.WriteFault → Rose (K.faults sink.old) (K.faults sink.new) }
    ensures never_falls { K.faults sink.old ≤ K.faults sink.new }
{
    each_doubt_run_is_safe();
    let plan = script.plan().copy(alloc)?;
    let mut world = DoubtWorld::open(alloc, plan)?;
    run_script(alloc, &mut world, script, sink)
}

/// Runs the script in this network, and writes its reports.
fn run_script<K: Sink>(
    alloc: Global,
    world: &mut DoubtWorld,
    script: &DoubtScript,
    sink: &mut K,
) -> Result<(), RunFault>
    requires { IsReady world.old script.now }
    ensures done { OnOk result (Writes (IsDoubtRunText script.now.plan script.now.lines) (K.written sink.old) (K.written sink.new)) }
    ensures begun { OnErr result (Begins (IsDoubtBegunText script.now.plan script.now.lines) (K.written sink.old) (K.written sink.new)) }
    ensures too_much { IsErrOf result RunFault.TooMuch → DoubtsSendTooMuch script.now.plan script.now.lines }
    ensures stopped { IsErrOf result RunFault.TooMuch
        → Writes (IsDoubtStoppedText script.now.plan script.now.lines) (K.written sink.old) (K.written sink.new) }
    ensures fault { IsErrOf result RunFault.WriteFault → Rose (K.faults sink.old) (K.faults sink.new) }
    ensures never_falls { K.faults sink.old ≤ K.faults sink.new }
{
    each_doubt_run_is_safe();
    let mut buffer = WriteBuffer::new();
    match write_lines(alloc, world, script, &mut buffer, sink) {
        Ok(()) => {
            buffer.flush(sink)?;
            Ok(())
        }
        Err(RunFault::TooMuch) => {
            buffer.flush(sink)?;
            Err(RunFault::TooMuch)
        }
        Err(RunFault::OutOfMemory) => Err(RunFault::OutOfMemory),
        Err(RunFault::WriteFault) => Err(RunFault::WriteFault),
    }
}

/// Runs the lines of the script, and puts their reports into the buffer.
fn write_lines<K: Sink>(
    alloc: Global,
    world: &mut DoubtWorld,
    script: &DoubtScript,
    buffer: &mut WriteBuffer,
    sink: &mut K,
) -> Result<(), RunFault>
    requires ready { IsReady world.old script.now }
    requires empty { buffer.old ≡ [] }
    ensures written { WritesLines script.now.plan script.now.lines (K.written sink.old) (K.written sink.new) buffer.new result }
    ensures fault { IsErrOf result RunFault.WriteFault → Rose (K.faults sink.old) (K.faults sink.new) }
    ensures never_falls { K.faults sink.old ≤ K.faults sink.new }
{
    for i in 0..script.len() {
        let Some(line) = script.line(i) else {
            unreachable!()
        };
        match write_line(alloc, world, line, buffer, sink) {
            Ok(()) => {}
            Err(fault) => return Err(fault),
        }
    }
    Ok(())
}

/// Runs a line, and puts its report and LF into the buffer.
fn write_line<K: Sink>(
    alloc: Global,
    world: &mut DoubtWorld,
    line: &DoubtLine,
    buffer: &mut WriteBuffer,
    sink: &mut K,
) -> Result<(), RunFault>
    requires { CanRunDoubt world.old line.now.act }
    ensures written { PassesLine world.old world.new line.now (K.written sink.old) buffer.old (K.written sink.new) buffer.new result }
    ensures fault { IsErrOf result RunFault.WriteFault → Rose (K.faults sink.old) (K.faults sink.new) }
    ensures never_falls { K.faults sink.old ≤ K.faults sink.new }
{
    match run_doubt_line(alloc, world, line) {
        Ok(told) => put_line(&told, buffer, sink),
        Err(stop) => Err(stop_fault(stop)),
    }
}

/// Puts a text and LF into the buffer.
fn put_line<K: Sink>(text: &Chars, buffer: &mut WriteBuffer, sink: &mut K) -> Result<(), RunFault>
    ensures passed { OnOk result (Passes (K.written sink.old) (K.written sink.new) buffer.new (buffer.old ++ (text.now ++ 10 ∷ []))) }
    ensures front { AppendsFront (K.written sink.old) (K.written sink.new) (buffer.old ++ (text.now ++ 10 ∷ [])) }
    ensures stop { IfErr result (λ fault. fault ≡ RunFault.WriteFault) }
    ensures fault { IsErrOf result RunFault.WriteFault → Rose (K.faults sink.old) (K.faults sink.new) }
    ensures never_falls { K.faults sink.old ≤ K.faults sink.new }
{
    buffer.put(sink, text.bytes())?;
    buffer.put(sink, b"\n")?;
    Ok(())
}

/// The fault for which a network was stopped.
fn stop_fault(stop: WorldStop) -> RunFault
    ensures { result ≡ fault_of stop }
{
    match stop {
        WorldStop::TooMuch => RunFault::TooMuch,
        WorldStop::OutOfMemory => RunFault::OutOfMemory,
    }
}
