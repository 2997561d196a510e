//! What a line says that a drain gave.

ghost use Rattle.std.specs.Prelude.{◌≡◌, ◌↔◌, List, IfOk, IsTrue, string_bytes};
ghost use Rattle.std.specs.List.{AllByRecursion};
ghost use Rattle.grasp_audit.specs.Numbers.{OutputFits};
ghost use Rattle.grasp_audit.specs.Told.{IsWritten, line_of_drain};
ghost use Rattle.grasp_record.specs.Answers.{drained_words, told_words};
ghost use Rattle.grasp_record.specs.Records.{record_line};
ghost use Rattle.grasp_record.specs.declared.line.RecordLine.{RecordLine};
ghost use Rattle.grasp_types.specs.declared.traffic.Output.{Output};

use crate::numbers::outputs_fit;
use crate::split::are_same;
use crate::told::told_part;
use grasp_cbor::OutOfMemory;
use grasp_record::{RecordAnswer, RecordInput, RecordLine, push_record_line};
use grasp_types::Outputs;
use std::alloc::Global;

/// Whether these outputs are, in words, what the line says.
pub(crate) fn gives_so(alloc: Global, text: &[u8], outputs: Outputs) -> Result<bool, OutOfMemory>
    ensures { IfOk result (λ is_so. (x : RecordLine) → IsWritten text.now x → IsTrue is_so ↔ (drained_words outputs ≡ told_words x.answer)) }
{
    outputs_fit(&outputs);
    let line = line_of_drain(outputs);
    is_told_so(alloc, text, &line)
}

/// The line of a drain of node 1 that gives these outputs.
fn line_of_drain(outputs: Outputs) -> RecordLine
    ensures { result ≡ line_of_drain outputs }
{
    RecordLine {
        node: 1,
        now: 0,
        input: RecordInput::Drain { max: 0 },
        answer: RecordAnswer::Outputs(outputs),
    }
}

/// Whether what a drain's line says is, in words, what the text's line says.
fn is_told_so(alloc: Global, text: &[u8], line: &RecordLine) -> Result<bool, OutOfMemory>
    ensures { IfOk result (λ is_so. (outputs : List Output) (x : RecordLine) → AllByRecursion OutputFits outputs → line.entry.now ≡ line_of_drain outputs
        → IsWritten text.now x → IsTrue is_so ↔ (drained_words outputs ≡ told_words x.answer)) }
{
    let own = written(alloc, line)?;
    Ok(are_same(told_part(own.as_bytes()), told_part(text)))
}

/// The line as it is written.
fn written(alloc: Global, line: &RecordLine) -> Result<String, OutOfMemory>
    ensures { IfOk result (λ out. string_bytes out ≡ record_line line.entry.now) }
{
    let mut out = String::new(alloc);
    push_record_line(alloc, &mut out, line)?;
    Ok(out)
}
