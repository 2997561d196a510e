//! Reading lines, and copying them.
ghost use Rattle.std.specs.Prelude.{◌≡◌, ◌≤◌, ℕ, List, [], ◌∷◌, IfOk, OnOk, OnErr, IsErrOf, MatchOption};
ghost use Rattle.std.specs.Io.KnownBytes.{Consumes, Appends, Keeps};
ghost use Rattle.grasp_io.specs.Faults.{Rose};
ghost use Rattle.grasp_client.specs.Lines.{ended, RunsOut, Copies, GotRest};
ghost use Rattle.grasp_client.specs.Reading.{Got};
ghost use Rattle.grasp_client.specs.declared.ending.Ending.{Ending};
ghost use Rattle.grasp_client.specs.declared.lines.Read.{Read};
ghost use Rattle.grasp_client.specs.declared.lines.Trouble.{Trouble};

use crate::Ending;
use grasp_io::{Failed, Sink, Source, write_all};
use std::alloc::Global;

const LINE_END: u8 = b'\n';

/// What was read.
#[derive(Drop)]
pub(crate) enum Read {
    /// A line, without its end.
    Line(Vec<u8>),
    /// What stood before the end of the input, without a line's end.
    Rest(Vec<u8>),
}

/// Why a line wasn't read.
#[derive(Clone, Copy)]
pub(crate) enum Trouble {
    /// A read failed.
    Fault,
    /// There was no memory.
    OutOfMemory,
}

impl From<Failed> for Trouble {
    ghost use Rattle.grasp_client.specs.declared.lines.Trouble.TheVariants as troubles;

    ghost from_gives = { λ _ e. e ≡ troubles.Fault };

    fn from(_: Failed) -> Trouble {
        Trouble::Fault
    }
}

/// The next byte, or none at the end.
#[tactic(auto, using(crate::proofs::Copying::byte_taken, crate::proofs::Copying::none_taken, crate::proofs::Copying::none_left))]
pub(crate) fn read_byte<S: Source>(source: &mut S) -> Result<Option<u8>, Failed>
    ensures given { IfOk result (λ next. MatchOption next (RunsOut (S.left source.old) (S.left source.new) × Consumes (S.left source.old) (S.left source.new) [])
        (λ byte. Consumes (S.left source.old) (S.left source.new) (byte ∷ []))) }
    ensures unchanged { OnErr result (Keeps (S.left source.old) (S.left source.new)) }
    ensures fault { OnErr result (Rose (S.faults source.old) (S.faults source.new)) }
    ensures never_falls { S.faults source.old ≤ S.faults source.new }
{
    let mut byte = [0];
    match source.read(&mut byte)? {
        0 => Ok(None),
        _ => Ok(Some(byte[0])),
    }
}

/// The next line. After an `Err` some bytes may be gone from the source.
pub(crate) fn read_line<S: Source>(alloc: Global, source: &mut S) -> Result<Read, Trouble>
    ensures given { IfOk result (Got (S.left source.old) (S.left source.new)) }
    ensures fault { IsErrOf result Trouble.Fault → Rose (S.faults source.old) (S.faults source.new) }
    ensures never_falls { S.faults source.old ≤ S.faults source.new }
{
    let mut line = Vec::new(alloc);
    for _ in 0..u64::MAX {
        let Some(byte) = read_byte(source)? else {
            return Ok(Read::Rest(line));
        };
        if byte == LINE_END {
            return Ok(Read::Line(line));
        }
        if line.push(byte).is_err() {
            return Err(Trouble::OutOfMemory);
        }
    }
    Err(Trouble::OutOfMemory)
}

/// Writes a line and its end.
pub(crate) fn write_line<K: Sink>(line: &[u8], sink: &mut K) -> Result<(), Failed>
    ensures written { OnOk result (Appends (K.written sink.old) (K.written sink.new) (ended line.now)) }
    ensures fault { OnErr result (Rose (K.faults sink.old) (K.faults sink.new)) }
    ensures never_falls { K.faults sink.old ≤ K.faults sink.new }
{
    write_all(sink, line)?;
    write_all(sink, b"\n")
}

/// Copies the next line of the node, and returns it. What stands behind the last line isn't copied.
#[tactic(auto, using(crate::proofs::Copying::copies_one))]
pub(crate) fn copy_line<N: Source, K: Sink>(
    alloc: Global,
    node: &mut N,
    out: &mut K,
) -> Result<Vec<u8>, Ending>
    ensures copied { IfOk result (λ line. Copies (N.left node.old) (N.left node.new) (K.written out.old) (K.written out.new) (line.items ∷ [])) }
    ensures ended { IsErrOf result Ending.Ended → (rest : List ℕ) × GotRest (N.left node.old) (N.left node.new) rest }
    ensures untouched { IsErrOf result Ending.Ended → out.new ≡ out.old }
    ensures node_fault { IsErrOf result Ending.NodeFault → Rose (N.faults node.old) (N.faults node.new) }
    ensures write_fault { IsErrOf result Ending.WriteFault → Rose (K.faults out.old) (K.faults out.new) }
    ensures no_input { IsErrOf result Ending.InputFault → ⊥ }
    ensures node_faults { N.faults node.old ≤ N.faults node.new }
    ensures out_faults { K.faults out.old ≤ K.faults out.new }
{
    let line = match read_line(alloc, node) {
        Ok(Read::Line(line)) => line,
        Ok(Read::Rest(_)) => return Err(Ending::Ended),
        Err(Trouble::Fault) => return Err(Ending::NodeFault),
        Err(Trouble::OutOfMemory) => return Err(Ending::OutOfMemory),
    };
    if write_line(&line, out).is_err() {
        return Err(Ending::WriteFault);
    }
    Ok(line)
}
