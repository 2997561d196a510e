//! `audit`: whether a record is that of a run.
ghost use Rattle.std.specs.Prelude.{◌≡◌, ◌≢◌, IfOk, IfErr, IsErrOf, string_bytes};
ghost use Rattle.grasp_io.specs.Faults.{Rose};
ghost use Rattle.grasp_model_audit.specs.Audits.{IsAudited};
ghost use Rattle.grasp_model_audit.specs.Verdicts.{IsAudit};
ghost use Rattle.grasp_replay_main.specs.Audit.{Accepts, refused, safe_line};
ghost use Rattle.grasp_replay_main.specs.Task.{AuditMakes, IsDone, IsOfInput, IsUnfinished};
ghost use Rattle.grasp_replay_main.specs.Written.{Writes};
ghost use Rattle.grasp_replay_main.specs.declared.exit.Status.TheVariants as status;
ghost use Rattle.grasp_replay_main.specs.declared.task.Task.TheVariants as task;
ghost use Rattle.grasp_runner.specs.Written as ran;

use crate::exit::{Finding, Status};
use crate::unfinished::Unfinished;
use grasp_cbor::OutOfMemory;
use grasp_io::{Sink, write_all};
use grasp_model_audit::{Audit, AuditFault};
use grasp_text::push_number;
use std::alloc::Global;

/// Audits the record that the input is, and writes how many nodes and lines it has. Where it is none of a run, nothing is written.
pub fn audit<K: Sink>(alloc: Global, input: &[u8], sink: &mut K) -> Result<Status, Unfinished>
    ensures done { IfOk result (λ ended. Writes (AuditMakes input.now) (K.written sink.old) (K.written sink.new) ended) }
    ensures ended { IfOk result IsDone }
    ensures of_input { IfOk result IsOfInput }
    ensures whole { IfOk result (λ ended. IsAudited input.now → ended ≡ status.Ok) }
    ensures stopped { IsErrOf result Unfinished.TooMuch → Writes (AuditMakes input.now) (K.written sink.old) (K.written sink.new) status.TooLarge }
    ensures begun { IsErrOf result Unfinished.WriteFault → ran.Begins (Accepts input.now) (K.written sink.old) (K.written sink.new) }
    ensures unwritten { IfErr result (λ unfinished. unfinished ≢ Unfinished.WriteFault → sink.new ≡ sink.old) }
    ensures unfinished { IfErr result (λ unfinished. IsUnfinished task.Audit input.now unfinished) }
    ensures fault { IsErrOf result Unfinished.WriteFault → Rose (K.faults sink.old) (K.faults sink.new) }
{
    match grasp_audit::audit(alloc, input) {
        Ok(audit) => accept(alloc, input, audit, sink),
        Err(fault) => refuse(fault),
    }
}

/// Writes how many nodes and lines the record has that the input is.
fn accept<K: Sink>(
    alloc: Global,
    input: &[u8],
    audit: Audit,
    sink: &mut K,
) -> Result<Status, Unfinished>
    requires { IsAudit input.now audit }
    ensures ok { IfOk result (λ ended. ended ≡ status.Ok) }
    ensures done { IfOk result (λ _. ran.Writes (Accepts input.now) (K.written sink.old) (K.written sink.new)) }
    ensures begun { IsErrOf result Unfinished.WriteFault → ran.Begins (Accepts input.now) (K.written sink.old) (K.written sink.new) }
    ensures unwritten { IfErr result (λ unfinished. unfinished ≢ Unfinished.WriteFault → sink.new ≡ sink.old) }
    ensures unfinished { IfErr result (λ unfinished. IsUnfinished task.Audit input.now unfinished) }
    ensures not_too_much { IfErr result (λ unfinished. unfinished ≢ Unfinished.TooMuch) }
    ensures fault { IsErrOf result Unfinished.WriteFault → Rose (K.faults sink.old) (K.faults sink.new) }
{
    let line = safe_line(alloc, audit)?;
    match write_all(sink, line.as_bytes()) {
        Ok(()) => Ok(Status::Ok),
        Err(_) => Err(Unfinished::WriteFault),
    }
}

/// The line that tells how many nodes and lines a record has, ended by LF.
fn safe_line(alloc: Global, audit: Audit) -> Result<String, OutOfMemory>
    ensures { IfOk result (λ line. string_bytes line ≡ safe_line audit) }
{
    let mut line = String::from_str(alloc, "safe nodes")?;
    push_number(&mut line, u64::from(audit.nodes))?;
    line.push_str(" lines")?;
    push_number(&mut line, audit.lines)?;
    line.push_str("\n")?;
    Ok(line)
}

/// How a record that fails so ends the program.
fn refuse(fault: AuditFault) -> Result<Status, Unfinished>
    ensures { result ≡ refused fault }
{
    match fault {
        AuditFault::BadRecord { line } => Ok(Status::Finding(Finding::BadRecord { line })),
        AuditFault::NotSent { line } => Ok(Status::Finding(Finding::NotSent { line })),
        AuditFault::NotAgent { line } => Ok(Status::Finding(Finding::NotAgent { line })),
        AuditFault::NotStep { line } => Ok(Status::Finding(Finding::NotStep { line })),
        AuditFault::TooMuch => Err(Unfinished::TooMuch),
        AuditFault::OutOfMemory => Err(Unfinished::OutOfMemory),
    }
}
