//! A sink that never waits, for a log that is to stop nothing.
ghost use Rattle.std.specs.Prelude.{◌≡◌, ◌≤◌, length, None, IfOk};

use crate::standard::write_some;
use crate::{Failed, Sink};
use libc::net as c;
use libc::types::pollfd;
use std::io::Write;
use std::os::fd::AsRawFd;

// A pipe that takes something takes so many bytes without a wait.
const PIECE: usize = 4096;

const LINE_END: u8 = b'\n';

/// A stream that takes lines: standard error, as a rule. A write that the system wouldn't take at once fails, so that a pipe which
/// nobody reads holds up nothing. Where a line was cut off, the next one begins on a line of its own. It tells no content.
#[derive(Drop)]
pub struct PatientSink<W> {
    stream: W,
    faults: u64,
    // What was written last ends a line, or nothing was written.
    at_start: bool,
    // A line was cut off, and its end is to be written before anything else.
    is_cut: bool,
}

impl<W: Write + AsRawFd> PatientSink<W> {
    /// This stream, with no fault so far.
    pub fn new(stream: W) -> Self
        ensures { ⟦<PatientSink<W> as Sink>⟧.faults result ≡ 0 }
    {
        PatientSink {
            stream,
            faults: 0,
            at_start: true,
            is_cut: false,
        }
    }

    /// How often it took nothing. Where each line is written by `write_all`, this is how many lines were left out or cut off.
    pub fn dropped(&self) -> u64
        ensures { result ≡ ⟦<PatientSink<W> as Sink>⟧.faults self.now }
    {
        self.faults
    }

    // Whether the system takes some bytes at once.
    fn is_ready(&self) -> bool {
        let mut polled = [pollfd {
            fd: self.stream.as_raw_fd(),
            events: c::POLLOUT,
            revents: 0,
        }];
        c::poll(&mut polled, 0) > 0 && polled[0].revents & c::POLLOUT != 0
    }

    // Ends a line that was cut off, where one is, and returns whether none is.
    fn mend(&mut self) -> bool
        ensures { self.new.faults ≡ self.old.faults }
    {
        if self.is_cut && self.is_ready() && write_some(&mut self.stream, &[LINE_END]) == Ok(1) {
            self.is_cut = false;
            self.at_start = true;
        }
        !self.is_cut
    }

    // One write, where the system takes it at once.
    fn try_write(&mut self, piece: &[u8]) -> Result<usize, Failed>
        ensures same { self.new.faults ≡ self.old.faults }
        ensures count { IfOk result (λ n. n ≤ length piece.now) }
    {
        if !self.mend() || !self.is_ready() {
            return Err(Failed);
        }
        let front = &piece[..piece.len().min(PIECE)];
        let taken = write_some(&mut self.stream, front)?;
        if let Some(last) = front[..taken].last() {
            self.at_start = *last == LINE_END;
        }
        Ok(taken)
    }
}

impl<W: Write + AsRawFd> Sink for PatientSink<W> {
    ghost written = { λ _. None };

    ghost faults = { λ s. s.faults };

    fn write(&mut self, piece: &[u8]) -> Result<usize, Failed> {
        let taken = self.try_write(piece);
        if taken.is_err() || taken == Ok(0) {
            self.is_cut = !self.at_start;
            self.faults = self.faults.saturating_add(1);
        }
        taken
    }
}
