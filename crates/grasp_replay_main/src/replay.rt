//! `replay`: the reports of a script's lines.
ghost use Rattle.std.specs.Prelude.{◌≡◌, ◌≢◌, ◌↔◌, ◌⊎◌, IsTrue, IfOk, IfErr, IsErrOf};
ghost use Rattle.grasp_io.specs.Faults.{Rose};
ghost use Rattle.grasp_script.specs.Scripts.{IsScript};
ghost use Rattle.grasp_model_script.specs.ScriptRuns.{BeginsToReplay};
ghost use Rattle.grasp_replay_main.specs.Task.{ReplayMakes, HasTooManyLines, IsUnfinished};
ghost use Rattle.grasp_runner.specs.Written as ran;
ghost use Rattle.grasp_replay_main.specs.Written.{Writes};
ghost use Rattle.grasp_replay_main.specs.declared.exit.Status.TheVariants as status;
ghost use Rattle.grasp_replay_main.specs.declared.task.Task.TheVariants.{Replay};

use crate::exit::Status;
use crate::lines::count_lines;
use crate::unfinished::Unfinished;
use grasp_io::Sink;
use grasp_runner::{RunFault, write_reports};
use grasp_script::{Script, ScriptFault, parse_script};
use std::alloc::Global;

/// The most lines that a script may have.
const LINE_LIMIT: u64 = 200_000;

/// Runs the script that the input is, and writes the reports of its lines while it goes.
pub fn replay<K: Sink>(alloc: Global, input: &[u8], sink: &mut K) -> Result<Status, Unfinished>
    ensures done { IfOk result (λ ended. Writes (ReplayMakes input.now) (K.written sink.old) (K.written sink.new) ended) }
    ensures ok { IfOk result (λ ended. ended ≡ status.Ok) }
    ensures few { IfOk result (λ _. ¬ HasTooManyLines Replay input.now) }
    ensures stopped { IsErrOf result Unfinished.TooMuch → Writes (ReplayMakes input.now) (K.written sink.old) (K.written sink.new) status.TooLarge }
    ensures begun { IsErrOf result Unfinished.WriteFault → ran.Begins (BeginsToReplay input.now) (K.written sink.old) (K.written sink.new) }
    ensures begun_for_memory { IsErrOf result Unfinished.OutOfMemory
        → (sink.new ≡ sink.old) ⊎ ran.Begins (BeginsToReplay input.now) (K.written sink.old) (K.written sink.new) }
    ensures unwritten { IfErr result (λ unfinished. unfinished ≢ Unfinished.WriteFault → unfinished ≢ Unfinished.OutOfMemory
        → unfinished ≢ Unfinished.TooMuch → sink.new ≡ sink.old) }
    ensures unfinished { IfErr result (λ unfinished. IsUnfinished Replay input.now unfinished) }
    ensures fault { IsErrOf result Unfinished.WriteFault → Rose (K.faults sink.old) (K.faults sink.new) }
{
    let script = read_script(alloc, input)?;
    match write_reports(alloc, &script, sink) {
        Ok(()) => Ok(Status::Ok),
        Err(RunFault::TooMuch) => Err(Unfinished::TooMuch),
        Err(RunFault::OutOfMemory) => Err(Unfinished::OutOfMemory),
        Err(RunFault::WriteFault) => Err(Unfinished::WriteFault),
    }
}

/// The script that the input is.
pub(crate) fn read_script(alloc: Global, input: &[u8]) -> Result<Script, Unfinished>
    ensures found { IfOk result (λ script. IsScript input.now script.plan script.lines) }
    ensures few { IfOk result (λ _. ¬ HasTooManyLines Replay input.now) }
    ensures unfinished { IfErr result (λ unfinished. IsUnfinished Replay input.now unfinished) }
    ensures no_fault { IfErr result (λ unfinished. unfinished ≢ Unfinished.WriteFault) }
    ensures not_run { IfErr result (λ unfinished. unfinished ≢ Unfinished.TooMuch) }
{
    if has_too_many_lines(input) {
        return Err(Unfinished::TooLarge);
    }
    match parse_script(alloc, input) {
        Ok(script) => Ok(script),
        Err(ScriptFault::BadScript { line }) => Err(Unfinished::BadScript { line }),
        Err(ScriptFault::OutOfMemory) => Err(Unfinished::OutOfMemory),
    }
}

/// Whether the input has more lines than a script may have.
pub(crate) fn has_too_many_lines(input: &[u8]) -> bool
    ensures { IsTrue result ↔ HasTooManyLines Replay input.now }
{
    count_lines(input) > LINE_LIMIT
}
