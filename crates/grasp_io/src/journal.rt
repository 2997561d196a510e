//! The log of a node: lines with their time and the node's name, of which as much is written as is wanted just now.
ghost use Rattle.std.specs.Prelude.{◌≡◌, ◌≤◌, None, OnErr};
ghost use Rattle.grasp_io.specs.Faults.{Rose};

use crate::{Failed, PatientSink, Sink, Stamp, WriteBuffer};
use std::io::Write;
use std::os::fd::AsRawFd;
use std::sync::atomic::{AtomicU8, Ordering};
use std::time::Clock;

/// How much a log tells.
#[derive(Clone, Copy, Debug, PartialEq, Eq)]
pub enum LogLevel {
    /// Nothing.
    Quiet,
    /// What becomes of a node's prefixes, wants, readers and visitors, and what fails.
    Events,
    /// Also each datagram, each message on a stream and each stream.
    Traffic,
}

fn rank(level: LogLevel) -> u8 {
    match level {
        LogLevel::Quiet => 0,
        LogLevel::Events => 1,
        LogLevel::Traffic => 2,
    }
}

/// The level of a log, which may be changed while others read it.
#[derive(Drop)]
pub struct LogSwitch {
    rank: AtomicU8,
}

impl LogSwitch {
    /// A log of this level.
    pub fn new(level: LogLevel) -> LogSwitch {
        LogSwitch {
            rank: AtomicU8::new(rank(level)),
        }
    }

    /// From now on the log has this level.
    pub fn set(&self, level: LogLevel) {
        self.rank.store(rank(level), Ordering::SeqCst);
    }

    /// Whether lines of this level are wanted.
    pub fn wants(&self, level: LogLevel) -> bool {
        self.rank.load(Ordering::SeqCst) >= rank(level)
    }
}

/// A stream for the lines of a log, in front of each of which it writes the time and a name. Lines that aren't wanted are taken
/// and dropped, and a write that the system wouldn't take at once fails. Each write begins a line, or goes on with one that the last
/// write didn't end. It tells no content.
#[derive(Drop)]
pub struct Journal<'a, W, R> {
    sink: PatientSink<W>,
    clock: R,
    name: &'a str,
    switch: &'a LogSwitch,
    level: LogLevel,
    at_start: bool,
}

impl<'a, W: Write + AsRawFd, R: Clock> Journal<'a, W, R> {
    /// Lines of this level for this stream. No name is written where it is empty.
    pub fn new(stream: W, clock: R, name: &'a str, switch: &'a LogSwitch, level: LogLevel) -> Self
        ensures { ⟦<Journal<'a, W, R> as Sink>⟧.faults result ≡ 0 }
    {
        Journal {
            sink: PatientSink::new(stream),
            clock,
            name,
            switch,
            level,
            at_start: true,
        }
    }

    /// How many lines were left out or cut off, since the system took nothing.
    pub fn dropped(&self) -> u64
        ensures { result ≡ ⟦<Journal<'a, W, R> as Sink>⟧.faults self.now }
    {
        self.sink.dropped()
    }

    // Writes a piece, behind the time and the name where it begins a line.
    #[tactic(auto, using(crate::proofs::Facts::rose_before))]
    fn put(&mut self, piece: &[u8]) -> Result<(), Failed>
        ensures fault { OnErr result (Rose self.old.sink.faults self.new.sink.faults) }
        ensures never_falls { self.old.sink.faults ≤ self.new.sink.faults }
    {
        let mut buffer = WriteBuffer::new();
        if self.at_start {
            self.put_head(&mut buffer)?;
        }
        buffer.put(&mut self.sink, piece)?;
        buffer.flush(&mut self.sink)
    }

    #[tactic(auto, using(crate::proofs::Facts::rose_before))]
    fn put_head(&mut self, buffer: &mut WriteBuffer) -> Result<(), Failed>
        ensures fault { OnErr result (Rose self.old.sink.faults self.new.sink.faults) }
        ensures never_falls { self.old.sink.faults ≤ self.new.sink.faults }
    {
        if let Some(stamp) = Stamp::now(&self.clock) {
            buffer.put(&mut self.sink, stamp.bytes())?;
            buffer.put(&mut self.sink, b" ")?;
        }
        if !self.name.is_empty() {
            buffer.put(&mut self.sink, self.name.as_bytes())?;
            buffer.put(&mut self.sink, b" ")?;
        }
        Ok(())
    }
}

impl<W: Write + AsRawFd, R: Clock> Sink for Journal<'_, W, R> {
    ghost written = { λ _. None };

    ghost faults = { λ s. s.sink.faults };

    fn write(&mut self, piece: &[u8]) -> Result<usize, Failed> {
        if self.switch.wants(self.level) && !piece.is_empty() {
            let put = self.put(piece);
            self.at_start = put.is_err() || piece.last() == Some(&b'\n');
            put?;
        }
        Ok(piece.len())
    }
}
