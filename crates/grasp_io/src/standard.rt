//! The standard streams. No contract says which bytes they give or take.
ghost use Rattle.std.specs.Prelude.{◌≡◌, ◌≤◌, length, None, IfOk, IfSome};

use crate::{Failed, Sink, Source};
use std::io::{ErrorKind, Read, Write};
use std::rt::Stdin;

/// Standard input. It tells no content.
#[derive(Drop)]
pub struct StdSource {
    stdin: Stdin,
    faults: u64,
}

impl StdSource {
    /// Standard input, with no fault so far.
    pub fn new(stdin: Stdin) -> Self
        ensures { ⟦<StdSource as Source>⟧.faults result ≡ 0 }
    {
        StdSource { stdin, faults: 0 }
    }
}

impl Source for StdSource {
    ghost left = { λ _. None };

    ghost faults = { λ s. s.faults };

    fn read(&mut self, into: &mut [u8]) -> Result<usize, Failed> {
        let given = read_some(&mut self.stdin, into);
        if given.is_err() {
            self.faults = self.faults.saturating_add(1);
        }
        given
    }
}

/// A standard stream that takes bytes: standard output, or standard error. It tells no content.
#[derive(Drop)]
pub struct StdSink<W> {
    stream: W,
    faults: u64,
}

impl<W: Write> StdSink<W> {
    /// This stream, with no fault so far.
    pub fn new(stream: W) -> Self
        ensures { ⟦<StdSink<W> as Sink>⟧.faults result ≡ 0 }
    {
        StdSink { stream, faults: 0 }
    }
}

impl<W: Write> Sink for StdSink<W> {
    ghost written = { λ _. None };

    ghost faults = { λ s. s.faults };

    fn write(&mut self, piece: &[u8]) -> Result<usize, Failed> {
        let taken = write_some(&mut self.stream, piece);
        if taken.is_err() || taken == Ok(0) {
            self.faults = self.faults.saturating_add(1);
        }
        taken
    }
}

/// One read. A read that a signal interrupted is made again.
pub fn read_some<R: Read>(reader: &mut R, into: &mut [u8]) -> Result<usize, Failed>
    ensures { IfOk result (λ n. n ≤ length into.new) }
{
    for _ in 0..u64::MAX {
        match reader.read(into) {
            Ok(given) => return Ok(given),
            Err(error) => {
                if error.kind() != ErrorKind::Interrupted {
                    return Err(Failed);
                }
            }
        }
    }
    Err(Failed)
}

/// One write. A write that a signal interrupted is made again.
pub fn write_some<W: Write>(writer: &mut W, piece: &[u8]) -> Result<usize, Failed>
    ensures { IfOk result (λ n. n ≤ length piece.now) }
{
    for _ in 0..u64::MAX {
        match writer.write(piece) {
            Ok(taken) => return Ok(taken),
            Err(error) => {
                if error.kind() != ErrorKind::Interrupted {
                    return Err(Failed);
                }
            }
        }
    }
    Err(Failed)
}
