//! Asking one line, and hearing until it is answered.
ghost use Rattle.std.specs.Prelude.{◌≡◌, ◌≤◌, ◌⊎◌, IsErrOf, OnOk, OnErr};
ghost use Rattle.std.specs.List.{list_all};
ghost use Rattle.grasp_io.specs.Faults.{Rose};
ghost use Rattle.grasp_client.specs.Lines.{RunsOut};
ghost use Rattle.grasp_client.specs.Asking.{is_printable, echo, is_answer_to, Heard, TurnOf};
ghost use Rattle.grasp_client.specs.declared.ending.Ending.{Ending};

use crate::Ending;
use crate::lines::{copy_line, write_line};
use grasp_io::{Sink, Source};
use std::alloc::Global;

/// Whether the byte is a blank or a visible character of ASCII.
fn is_printable(byte: u8) -> bool
    ensures { result ≡ is_printable byte }
{
    32 <= byte && byte <= 126
}

/// Whether each byte is printable.
fn are_printable(line: &[u8]) -> bool
    ensures { result ≡ list_all is_printable line.now }
{
    line.iter().all(|byte| is_printable(*byte))
}

/// The line as the node repeats it.
fn echo(line: &[u8]) -> &[u8]
    ensures { result.now ≡ echo line.now }
{
    if are_printable(line) { line } else { b"?" }
}

/// Whether the told line answers the asked one.
fn is_answer_to(asked: &[u8], told: &[u8]) -> bool
    ensures { result ≡ is_answer_to asked.now told.now }
{
    let repeated = echo(asked);
    told.starts_with(repeated) && told[repeated.len()..].starts_with(b" =")
}

/// Copies what the node says until it has answered the line.
fn hear<N: Source, K: Sink>(
    alloc: Global,
    asked: &[u8],
    node: &mut N,
    out: &mut K,
) -> Result<(), Ending>
    ensures heard { OnOk result (Heard asked.now (N.left node.old) (N.left node.new) (K.written out.old) (K.written out.new)) }
    ensures ended { IsErrOf result Ending.Ended → RunsOut (N.left node.old) (N.left node.new) }
    ensures node_fault { IsErrOf result Ending.NodeFault → Rose (N.faults node.old) (N.faults node.new) }
    ensures write_fault { IsErrOf result Ending.WriteFault → Rose (K.faults out.old) (K.faults out.new) }
    ensures no_input { IsErrOf result Ending.InputFault → ⊥ }
    ensures node_faults { N.faults node.old ≤ N.faults node.new }
    ensures out_faults { K.faults out.old ≤ K.faults out.new }
{
    for _ in 0..u64::MAX {
        let told = copy_line(alloc, node, out)?;
        if is_answer_to(asked, &told) {
            return Ok(());
        }
    }
    Err(Ending::OutOfMemory)
}

/// Asks the node a line, and copies what it says until it has answered.
pub(crate) fn ask<N: Source, W: Sink, K: Sink>(
    alloc: Global,
    asked: &[u8],
    node: &mut N,
    to_node: &mut W,
    out: &mut K,
) -> Result<(), Ending>
    ensures turn { OnOk result (TurnOf asked.now (W.written to_node.old) (W.written to_node.new)
        (N.left node.old) (N.left node.new) (K.written out.old) (K.written out.new)) }
    ensures ended { IsErrOf result Ending.Ended → RunsOut (N.left node.old) (N.left node.new) }
    ensures node_fault { IsErrOf result Ending.NodeFault
        → Rose (N.faults node.old) (N.faults node.new) ⊎ Rose (W.faults to_node.old) (W.faults to_node.new) }
    ensures write_fault { IsErrOf result Ending.WriteFault → Rose (K.faults out.old) (K.faults out.new) }
    ensures no_input { IsErrOf result Ending.InputFault → ⊥ }
    ensures node_faults { N.faults node.old ≤ N.faults node.new }
    ensures to_faults { W.faults to_node.old ≤ W.faults to_node.new }
    ensures out_faults { K.faults out.old ≤ K.faults out.new }
{
    if write_line(asked, to_node).is_err() {
        return Err(Ending::NodeFault);
    }
    hear(alloc, asked, node, out)
}
