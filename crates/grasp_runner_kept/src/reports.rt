//! Writing the reports of a script of a network whose nodes crash, while it runs.

ghost use Rattle.std.specs.Prelude.{◌≡◌, ◌≤◌, ◌<◌, ◌+◌, ◌^◌, ◌++◌, ◌∷◌, [], length, OnOk, OnErr, IfErr, IfOk, IsErrOf};
ghost use Rattle.grasp_io.specs.Faults.{Rose};
ghost use Rattle.grasp_io.specs.Known.{AppendsFront, Passes};
ghost use Rattle.grasp_kept.specs.Disks.{AreEmpty};
ghost use Rattle.grasp_kept.specs.Stands.{steps_of};
ghost use Rattle.grasp_runner.specs.Scripts.{fault_of};
ghost use Rattle.grasp_runner.specs.Written.{Writes, Begins};
ghost use Rattle.grasp_runner_kept.specs.Lines.{CanRunKept};
ghost use Rattle.grasp_runner_kept.specs.Passing.{PassesLine, IsReady, WritesLines};
ghost use Rattle.grasp_model_script_kept.specs.ScriptRuns.{IsKeptBegunText, IsKeptRunText, IsKeptStoppedText, KeptSendsTooMuch};
ghost use Rattle.grasp_runner_kept.specs.Scripts.{IsKeptRead};

use crate::lines::run_kept_line;
use grasp_cbor::{Chars, OutOfMemory};
use grasp_disk::{DiskList, MemDisk};
use grasp_io::{Sink, WriteBuffer};
use grasp_kept::KeptWorld;
use grasp_model_network::WorldStop;
use grasp_model_script_kept::each_kept_run_is_safe;
use grasp_runner::RunFault;
use grasp_script_kept::{KeptLine, KeptScript};
use std::alloc::Global;

/// Runs the lines of a script in order, in a network of its plan whose nodes keep their pools on disks, on which nothing was written
/// before. It writes the report of each, ended by LF.
///
/// It is written in blocks while the script runs. With `TooMuch` the reports of the lines before are written; after another
/// `Err` a beginning of the reports is.
pub fn write_kept_reports<K: Sink>(
    alloc: Global,
    script: &KeptScript,
    sink: &mut K,
) -> Result<(), RunFault>
    requires read { IsKeptRead script.now }
    requires few { length script.now.lines < 2 ^ 32 }
    ensures done { OnOk result (Writes (IsKeptRunText script.now.plan script.now.lines) (K.written sink.old) (K.written sink.new)) }
    ensures begun { OnErr result (Begins (IsKeptBegunText script.now.plan script.now.lines) (K.written sink.old) (K.written sink.new)) }
    ensures too_much { IsErrOf result RunFault.TooMuch → KeptSendsTooMuch script.now.plan script.now.lines }
    ensures stopped { IsErrOf result RunFault.TooMuch
        → Writes (IsKeptStoppedText script.now.plan script.now.lines) (K.written sink.old) (K.written sink.new) }
    ensures fault { IsErrOf result RunFault.WriteFault → Rose (K.faults sink.old) (K.faults sink.new) }
    ensures never_falls { K.faults sink.old ≤ K.faults sink.new }
{
    each_kept_run_is_safe();
    let plan = script.plan().copy(alloc)?;
    let disks = empty_disks(alloc, plan.nodes)?;
    let mut world = KeptWorld::open(alloc, plan, disks)?;
    run_script(alloc, &mut world, script, sink)
}

/// Runs the script in this network, and writes its reports.
fn run_script<K: Sink>(
    alloc: Global,
    world: &mut KeptWorld,
    script: &KeptScript,
    sink: &mut K,
) -> Result<(), RunFault>
    requires { IsReady world.old script.now }
    ensures done { OnOk result (Writes (IsKeptRunText script.now.plan script.now.lines) (K.written sink.old) (K.written sink.new)) }
    ensures begun { OnErr result (Begins (IsKeptBegunText script.now.plan script.now.lines) (K.written sink.old) (K.written sink.new)) }
    ensures too_much { IsErrOf result RunFault.TooMuch → KeptSendsTooMuch script.now.plan script.now.lines }
    ensures stopped { IsErrOf result RunFault.TooMuch
        → Writes (IsKeptStoppedText script.now.plan script.now.lines) (K.written sink.old) (K.written sink.new) }
    ensures fault { IsErrOf result RunFault.WriteFault → Rose (K.faults sink.old) (K.faults sink.new) }
    ensures never_falls { K.faults sink.old ≤ K.faults sink.new }
{
    each_kept_run_is_safe();
    let mut buffer = WriteBuffer::new();
    match write_lines(alloc, world, script, &mut buffer, sink) {
        Ok(()) => {
            buffer.flush(sink)?;
            Ok(())
        }
        Err(RunFault::TooMuch) => {
            buffer.flush(sink)?;
            Err(RunFault::TooMuch)
        }
        Err(RunFault::OutOfMemory) => Err(RunFault::OutOfMemory),
        Err(RunFault::WriteFault) => Err(RunFault::WriteFault),
    }
}

/// Runs the lines of the script, and puts their reports into the buffer.
fn write_lines<K: Sink>(
    alloc: Global,
    world: &mut KeptWorld,
    script: &KeptScript,
    buffer: &mut WriteBuffer,
    sink: &mut K,
) -> Result<(), RunFault>
    requires ready { IsReady world.old script.now }
    requires empty { buffer.old ≡ [] }
    ensures written { WritesLines script.now.plan script.now.lines (K.written sink.old) (K.written sink.new) buffer.new result }
    ensures fault { IsErrOf result RunFault.WriteFault → Rose (K.faults sink.old) (K.faults sink.new) }
    ensures never_falls { K.faults sink.old ≤ K.faults sink.new }
{
    for i in 0..script.len() {
        let Some(line) = script.line(i) else {
            unreachable!()
        };
        match write_line(alloc, world, line, buffer, sink) {
            Ok(()) => {}
            Err(fault) => return Err(fault),
        }
    }
    Ok(())
}

/// Runs a line, and puts its report and LF into the buffer.
fn write_line<K: Sink>(
    alloc: Global,
    world: &mut KeptWorld,
    line: &KeptLine,
    buffer: &mut WriteBuffer,
    sink: &mut K,
) -> Result<(), RunFault>
    requires run { CanRunKept world.old line.now }
    requires few { steps_of world.old < 2 ^ 32 }
    ensures written { PassesLine world.old world.new line.now (K.written sink.old) buffer.old (K.written sink.new) buffer.new result }
    ensures counts { steps_of world.new ≤ steps_of world.old + 1 }
    ensures fault { IsErrOf result RunFault.WriteFault → Rose (K.faults sink.old) (K.faults sink.new) }
    ensures never_falls { K.faults sink.old ≤ K.faults sink.new }
{
    match run_kept_line(alloc, world, line) {
        Ok(told) => put_line(&told, buffer, sink),
        Err(stop) => Err(stop_fault(stop)),
    }
}

/// Puts a text and LF into the buffer.
fn put_line<K: Sink>(text: &Chars, buffer: &mut WriteBuffer, sink: &mut K) -> Result<(), RunFault>
    ensures passed { OnOk result (Passes (K.written sink.old) (K.written sink.new) buffer.new (buffer.old ++ (text.now ++ 10 ∷ []))) }
    ensures front { AppendsFront (K.written sink.old) (K.written sink.new) (buffer.old ++ (text.now ++ 10 ∷ [])) }
    ensures stop { IfErr result (λ fault. fault ≡ RunFault.WriteFault) }
    ensures fault { IsErrOf result RunFault.WriteFault → Rose (K.faults sink.old) (K.faults sink.new) }
    ensures never_falls { K.faults sink.old ≤ K.faults sink.new }
{
    buffer.put(sink, text.bytes())?;
    buffer.put(sink, b"\n")?;
    Ok(())
}

/// The fault for which a network was stopped.
fn stop_fault(stop: WorldStop) -> RunFault
    ensures { result ≡ fault_of stop }
{
    match stop {
        WorldStop::TooMuch => RunFault::TooMuch,
        WorldStop::OutOfMemory => RunFault::OutOfMemory,
    }
}

/// So many disks on which nothing was written.
fn empty_disks(alloc: Global, nodes: u8) -> Result<DiskList, OutOfMemory>
    ensures { IfOk result (λ disks. AreEmpty nodes disks) }
{
    let mut disks = DiskList::new(alloc);
    for made in 0..nodes {
        disks.push(MemDisk::new(alloc)?)?;
    }
    Ok(disks)
}
