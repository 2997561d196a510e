//! `resolve`: the reports of a script's lines, of a network whose nodes ask each other about doubtful prefixes.
ghost use Rattle.std.specs.Prelude.{◌≡◌, ◌≢◌, ◌⊎◌, IfOk, IfErr, IsErrOf};
ghost use Rattle.grasp_io.specs.Faults.{Rose};
ghost use Rattle.grasp_model_script_doubts.specs.ScriptRuns.{BeginsToResolve};
ghost use Rattle.grasp_replay_main.specs.Task.{ResolveMakes, HasTooManyLines, IsUnfinished};
ghost use Rattle.grasp_replay_main.specs.Written.{Writes};
ghost use Rattle.grasp_replay_main.specs.declared.exit.Status.TheVariants as status;
ghost use Rattle.grasp_replay_main.specs.declared.task.Task.TheVariants.{Resolve};
ghost use Rattle.grasp_runner.specs.Written as ran;
ghost use Rattle.grasp_script_doubts.specs.Scripts.{IsDoubtScript};

use crate::exit::Status;
use crate::replay::has_too_many_lines;
use crate::unfinished::Unfinished;
use grasp_io::Sink;
use grasp_laws_settled::each_doubt_is_resolved;
use grasp_runner::RunFault;
use grasp_runner_doubts::write_doubt_reports;
use grasp_script::ScriptFault;
use grasp_script_doubts::{DoubtScript, parse_doubt_script};
use std::alloc::Global;

/// Runs the script that the input is, in a network in which each node has a doubter, and writes the reports of its lines while it goes.
#[tactic(auto, using(crate::proofs::Settling::resolve_written, crate::proofs::Settling::resolve_stopped))]
pub fn resolve<K: Sink>(alloc: Global, input: &[u8], sink: &mut K) -> Result<Status, Unfinished>
    ensures done { IfOk result (λ ended. Writes (ResolveMakes input.now) (K.written sink.old) (K.written sink.new) ended) }
    ensures ok { IfOk result (λ ended. ended ≡ status.Ok) }
    ensures few { IfOk result (λ _. ¬ HasTooManyLines Resolve input.now) }
    ensures stopped { IsErrOf result Unfinished.TooMuch → Writes (ResolveMakes input.now) (K.written sink.old) (K.written sink.new) status.TooLarge }
    ensures begun { IsErrOf result Unfinished.WriteFault → ran.Begins (BeginsToResolve input.now) (K.written sink.old) (K.written sink.new) }
    ensures begun_for_memory { IsErrOf result Unfinished.OutOfMemory
        → (sink.new ≡ sink.old) ⊎ ran.Begins (BeginsToResolve input.now) (K.written sink.old) (K.written sink.new) }
    ensures unwritten { IfErr result (λ unfinished. unfinished ≢ Unfinished.WriteFault → unfinished ≢ Unfinished.OutOfMemory
        → unfinished ≢ Unfinished.TooMuch → sink.new ≡ sink.old) }
    ensures unfinished { IfErr result (λ unfinished. IsUnfinished Resolve input.now unfinished) }
    ensures fault { IsErrOf result Unfinished.WriteFault → Rose (K.faults sink.old) (K.faults sink.new) }
{
    each_doubt_is_resolved();
    let script = read_script(alloc, input)?;
    match write_doubt_reports(alloc, &script, sink) {
        Ok(()) => Ok(Status::Ok),
        Err(RunFault::TooMuch) => Err(Unfinished::TooMuch),
        Err(RunFault::OutOfMemory) => Err(Unfinished::OutOfMemory),
        Err(RunFault::WriteFault) => Err(Unfinished::WriteFault),
    }
}

/// The script that the input is.
fn read_script(alloc: Global, input: &[u8]) -> Result<DoubtScript, Unfinished>
    ensures found { IfOk result (λ script. IsDoubtScript input.now script.plan script.lines) }
    ensures few { IfOk result (λ _. ¬ HasTooManyLines Resolve input.now) }
    ensures unfinished { IfErr result (λ unfinished. IsUnfinished Resolve input.now unfinished) }
    ensures no_fault { IfErr result (λ unfinished. unfinished ≢ Unfinished.WriteFault) }
    ensures not_run { IfErr result (λ unfinished. unfinished ≢ Unfinished.TooMuch) }
{
    if has_too_many_lines(input) {
        return Err(Unfinished::TooLarge);
    }
    match parse_doubt_script(alloc, input) {
        Ok(script) => Ok(script),
        Err(ScriptFault::BadScript { line }) => Err(Unfinished::BadScript { line }),
        Err(ScriptFault::OutOfMemory) => Err(Unfinished::OutOfMemory),
    }
}
