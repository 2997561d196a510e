//! The header of a script, which its record begins with.

ghost use Rattle.std.specs.Prelude.{◌≡◌, ◌≢◌, ◌≤◌, ◌∷◌, ◌++◌, []};
ghost use Rattle.std.specs.Prelude.{length, take, OnOk, OnErr, IfErr, IfOk, IsErrOf};
ghost use Rattle.grasp_io.specs.Faults.{Rose};
ghost use Rattle.grasp_io.specs.Known.{AppendsFront, Passes};
ghost use Rattle.grasp_model_audit.specs.Recording.{ended_lines};
ghost use Rattle.grasp_script.specs.Scripts.{IsScript, text_lines};
ghost use Rattle.grasp_recorder.specs.Passing.{header_in};

use grasp_cbor::OutOfMemory;
use grasp_io::{Sink, WriteBuffer};
use grasp_runner::RunFault;
use grasp_script::{Script, ScriptFault, read_head};
use grasp_script_parts::first_line;
use std::alloc::Global;

/// Puts the header of the script that a text is into the buffer: its lines as they stand, each ended by LF.
pub(crate) fn write_header<K: Sink>(
    alloc: Global,
    text: &[u8],
    script: &Script,
    buffer: &mut WriteBuffer,
    sink: &mut K,
) -> Result<(), RunFault>
    requires read { IsScript text.now script.now.plan script.now.lines }
    requires empty { buffer.old ≡ [] }
    ensures passed { OnOk result (Passes (K.written sink.old) (K.written sink.new) buffer.new
        (ended_lines (header_in text.now script.now.lines))) }
    ensures front { OnErr result (AppendsFront (K.written sink.old) (K.written sink.new)
        (ended_lines (header_in text.now script.now.lines))) }
    ensures stop { IfErr result (λ fault. fault ≢ RunFault.TooMuch) }
    ensures fault { IsErrOf result RunFault.WriteFault → Rose (K.faults sink.old) (K.faults sink.new) }
    ensures never_falls { K.faults sink.old ≤ K.faults sink.new }
{
    match header_lines(alloc, text, script) {
        Ok(count) => put_lines(text, count, buffer, sink),
        Err(OutOfMemory) => Err(RunFault::OutOfMemory),
    }
}

/// How many lines the header of the script that a text is has.
fn header_lines(alloc: Global, text: &[u8], script: &Script) -> Result<u64, OutOfMemory>
    requires { IsScript text.now script.now.plan script.now.lines }
    ensures whole { IfOk result (λ n. take n (text_lines text.now) ≡ header_in text.now script.now.lines) }
    ensures within { IfOk result (λ n. n ≤ length (text_lines text.now)) }
{
    match read_head(alloc, text) {
        Ok(head) => Ok(head.lines),
        Err(ScriptFault::OutOfMemory) => Err(OutOfMemory),
        Err(ScriptFault::BadScript { .. }) => unreachable!(),
    }
}

/// Puts the first so many lines of a text into the buffer, each ended by LF.
fn put_lines<K: Sink>(
    text: &[u8],
    count: u64,
    buffer: &mut WriteBuffer,
    sink: &mut K,
) -> Result<(), RunFault>
    requires many { count ≤ length (text_lines text.now) }
    requires empty { buffer.old ≡ [] }
    ensures passed { OnOk result (Passes (K.written sink.old) (K.written sink.new) buffer.new (ended_lines (take count (text_lines text.now)))) }
    ensures front { OnErr result (AppendsFront (K.written sink.old) (K.written sink.new) (ended_lines (take count (text_lines text.now)))) }
    ensures stop { IfErr result (λ fault. fault ≡ RunFault.WriteFault) }
    ensures fault { IsErrOf result RunFault.WriteFault → Rose (K.faults sink.old) (K.faults sink.new) }
    ensures never_falls { K.faults sink.old ≤ K.faults sink.new }
{
    let mut rest = text;
    for i in 0..count {
        let Some((line, behind)) = first_line(rest) else {
            unreachable!()
        };
        match put_line(line, buffer, sink) {
            Ok(()) => rest = behind,
            Err(fault) => return Err(fault),
        }
    }
    Ok(())
}

/// Puts a line and LF into the buffer.
fn put_line<K: Sink>(line: &[u8], buffer: &mut WriteBuffer, sink: &mut K) -> Result<(), RunFault>
    ensures passed { OnOk result (Passes (K.written sink.old) (K.written sink.new) buffer.new (buffer.old ++ (line.now ++ 10 ∷ []))) }
    ensures front { AppendsFront (K.written sink.old) (K.written sink.new) (buffer.old ++ (line.now ++ 10 ∷ [])) }
    ensures stop { IfErr result (λ fault. fault ≡ RunFault.WriteFault) }
    ensures fault { IsErrOf result RunFault.WriteFault → Rose (K.faults sink.old) (K.faults sink.new) }
    ensures never_falls { K.faults sink.old ≤ K.faults sink.new }
{
    buffer.put(sink, line)?;
    buffer.put(sink, b"\n")?;
    Ok(())
}
