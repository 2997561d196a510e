//! What is done besides running a node: a text that is asked for, and the end of the program.
ghost use Rattle.std.specs.Prelude.{◌≡◌, ◌⊎◌, []};
ghost use Rattle.std.specs.Io.KnownBytes.{Appends};
ghost use Rattle.grasp_io.specs.Faults.{Rose};
ghost use Rattle.grasp_io.specs.Known.{AppendsFront};
ghost use Rattle.grasp_node_main.specs.Exits.{number_of, fault_line_of};
ghost use Rattle.grasp_node_main.specs.Finish.{told_line};

use crate::exit::{Status, fault_text};
use grasp_io::{Sink, write_all};

/// Writes a text.
pub fn print_text<K: Sink>(text: &str, sink: &mut K) -> Status
    ensures status { (result ≡ Status.Ok) ⊎ (result ≡ Status.WriteFault) }
    ensures written { result ≡ Status.Ok → Appends (K.written sink.old) (K.written sink.new) text.now }
    ensures fault { result ≡ Status.WriteFault → Rose (K.faults sink.old) (K.faults sink.new) }
    ensures front { AppendsFront (K.written sink.old) (K.written sink.new) text.now }
{
    match write_all(sink, text.as_bytes()) {
        Ok(()) => Status::Ok,
        Err(_) => Status::WriteFault,
    }
}

/// Ends the program: writes the status's fault line with a line feed where it has one, and gives the number to exit with.
/// It takes no memory. A fault of this sink changes no number.
pub fn finish<K: Sink>(status: &Status, errors: &mut K) -> u8
    ensures number { result ≡ number_of status.now }
    ensures quiet { fault_line_of status.now ≡ [] → errors.new ≡ errors.old }
    ensures front { AppendsFront (K.written errors.old) (K.written errors.new) (told_line (fault_line_of status.now)) }
    ensures told { Appends (K.written errors.old) (K.written errors.new) (told_line (fault_line_of status.now))
        ⊎ Rose (K.faults errors.old) (K.faults errors.new) }
{
    tell(fault_text(status).as_bytes(), errors);
    status.number()
}

/// Writes a line that isn't empty, and a line feed.
fn tell<K: Sink>(line: &[u8], errors: &mut K)
    ensures quiet { line.now ≡ [] → errors.new ≡ errors.old }
    ensures front { AppendsFront (K.written errors.old) (K.written errors.new) (told_line line.now) }
    ensures told { Appends (K.written errors.old) (K.written errors.new) (told_line line.now)
        ⊎ Rose (K.faults errors.old) (K.faults errors.new) }
{
    if line.is_empty() {
        return;
    }
    if write_all(errors, line).is_ok() {
        let _ = write_all(errors, b"\n");
    }
}
