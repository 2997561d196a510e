//! `record`: the record of a script's run.
ghost use Rattle.std.specs.Prelude.{◌≡◌, ◌≢◌, ◌⊎◌, IfOk, IfErr, IsErrOf};
ghost use Rattle.grasp_io.specs.Faults.{Rose};
ghost use Rattle.grasp_model_audit.specs.RecordRuns.{BeginsRecordOf};
ghost use Rattle.grasp_replay_main.specs.Task.{RecordMakes, HasTooManyLines, IsUnfinished};
ghost use Rattle.grasp_replay_main.specs.Written.{Writes};
ghost use Rattle.grasp_replay_main.specs.declared.exit.Status.TheVariants as status;
ghost use Rattle.grasp_replay_main.specs.declared.task.Task.TheVariants.{Record};
ghost use Rattle.grasp_runner.specs.Written as ran;

use crate::exit::Status;
use crate::replay::read_script;
use crate::unfinished::Unfinished;
use grasp_io::Sink;
use grasp_laws_audit::records_are_audited;
use grasp_recorder::write_record;
use grasp_runner::RunFault;
use std::alloc::Global;

/// Runs the script that the input is, and writes the record of its run while it goes: the lines of its header as they stand, and then what
/// each node took and answered at each line.
#[tactic(auto, using(crate::proofs::Recording::read_as_replay, crate::proofs::Recording::record_written))]
pub fn record<K: Sink>(alloc: Global, input: &[u8], sink: &mut K) -> Result<Status, Unfinished>
    ensures done { IfOk result (λ ended. Writes (RecordMakes input.now) (K.written sink.old) (K.written sink.new) ended) }
    ensures ok { IfOk result (λ ended. ended ≡ status.Ok) }
    ensures few { IfOk result (λ _. ¬ HasTooManyLines Record input.now) }
    ensures stopped { IsErrOf result Unfinished.TooMuch → Writes (RecordMakes input.now) (K.written sink.old) (K.written sink.new) status.TooLarge }
    ensures begun { IsErrOf result Unfinished.WriteFault → ran.Begins (BeginsRecordOf input.now) (K.written sink.old) (K.written sink.new) }
    ensures begun_for_memory { IsErrOf result Unfinished.OutOfMemory
        → (sink.new ≡ sink.old) ⊎ ran.Begins (BeginsRecordOf input.now) (K.written sink.old) (K.written sink.new) }
    ensures unwritten { IfErr result (λ unfinished. unfinished ≢ Unfinished.WriteFault → unfinished ≢ Unfinished.OutOfMemory
        → unfinished ≢ Unfinished.TooMuch → sink.new ≡ sink.old) }
    ensures unfinished { IfErr result (λ unfinished. IsUnfinished Record input.now unfinished) }
    ensures fault { IsErrOf result Unfinished.WriteFault → Rose (K.faults sink.old) (K.faults sink.new) }
{
    records_are_audited();
    let script = read_script(alloc, input)?;
    match write_record(alloc, input, &script, sink) {
        Ok(()) => Ok(Status::Ok),
        Err(RunFault::TooMuch) => Err(Unfinished::TooMuch),
        Err(RunFault::OutOfMemory) => Err(Unfinished::OutOfMemory),
        Err(RunFault::WriteFault) => Err(Unfinished::WriteFault),
    }
}
