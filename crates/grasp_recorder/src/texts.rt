//! The texts of record lines.

ghost use Rattle.std.specs.Prelude.{◌≡◌, ◌++◌, ◌∷◌, [], OnOk, IfOk, string_bytes};
ghost use Rattle.grasp_model_audit.specs.Recording.{ended_lines};
ghost use Rattle.grasp_record.specs.Records.{record_line};
ghost use Rattle.grasp_recorder.specs.Taking.{drained_line};

use grasp_cbor::{Chars, OutOfMemory};
use grasp_record::{RecordAnswer, RecordInput, RecordLine, push_record_line};
use grasp_types::Outputs;
use std::alloc::Global;

/// A line, ended by LF.
pub(crate) fn one_line(alloc: Global, line: &RecordLine) -> Result<Chars, OutOfMemory>
    ensures { IfOk result (λ text. text ≡ ended_lines (record_line line.entry.now ∷ [])) }
{
    let mut text = String::new(alloc);
    push_ended(alloc, &mut text, line)?;
    Chars::of(alloc, text.as_str())
}

/// Two lines, each ended by LF.
pub(crate) fn two_lines(
    alloc: Global,
    first: &RecordLine,
    second: &RecordLine,
) -> Result<Chars, OutOfMemory>
    ensures { IfOk result (λ text. text ≡ ended_lines (record_line first.entry.now ∷ record_line second.entry.now ∷ [])) }
{
    let mut text = String::new(alloc);
    push_ended(alloc, &mut text, first)?;
    push_ended(alloc, &mut text, second)?;
    Chars::of(alloc, text.as_str())
}

/// Appends a line and LF.
fn push_ended(alloc: Global, out: &mut String, line: &RecordLine) -> Result<(), OutOfMemory>
    ensures { OnOk result (string_bytes out.new ≡ string_bytes out.old ++ ended_lines (record_line line.entry.now ∷ [])) }
{
    push_record_line(alloc, out, line)?;
    out.push_str("\n")?;
    Ok(())
}

/// The line of a drain, ended by LF.
pub(crate) fn drain_told(
    alloc: Global,
    node: u8,
    now: u64,
    max: u32,
    outputs: Outputs,
) -> Result<Chars, OutOfMemory>
    ensures { IfOk result (λ text. text ≡ ended_lines (record_line (drained_line node now max outputs) ∷ [])) }
{
    let line = drained_line(node, now, max, outputs);
    one_line(alloc, &line)
}

/// A line and that of the drain behind it, each ended by LF.
pub(crate) fn step_and_drain_told(
    alloc: Global,
    step: &RecordLine,
    max: u32,
    outputs: Outputs,
) -> Result<Chars, OutOfMemory>
    ensures { IfOk result (λ text. text ≡ ended_lines (record_line step.entry.now
        ∷ record_line (drained_line step.entry.now.node step.entry.now.now max outputs) ∷ [])) }
{
    let drain = drained_line(step.node, step.now, max, outputs);
    two_lines(alloc, step, &drain)
}

/// The line of a drain.
fn drained_line(node: u8, now: u64, max: u32, outputs: Outputs) -> RecordLine
    ensures { result ≡ drained_line node now max outputs }
{
    RecordLine {
        node,
        now,
        input: RecordInput::Drain { max },
        answer: RecordAnswer::Outputs(outputs),
    }
}
