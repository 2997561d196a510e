//! One visitor's connection: what came and is no whole line yet, and what is still to be written.
ghost use Rattle.grasp_desk.specs.Desk.{GivesNoComing};

use crate::Visiting;
use grasp_cbor::Octets;
use mio::net::UnixStream;
use mio::{Interest, Registry, Token};
use std::alloc::Global;
use std::io;
use std::io::{ErrorKind, Read, Write};

// The most bytes of a line.
const MOST_LINE: usize = 1 << 18;

// The most bytes that wait to be written.
const MOST_UNSENT: usize = 1 << 20;

// The most bytes that one read gives.
const PIECE: usize = 4096;

// The most reads, and the most writes, in one call.
const TRIES: usize = 128;

const LINE_END: u8 = b'\n';

#[derive(Clone, Copy, Debug, PartialEq, Eq)]
enum Stage {
    // It gives lines, and then its leaving.
    Here,
    // Nothing more is read of it. The lines that came are given, and then its leaving.
    Leaving,
    // Its leaving was given.
    Gone,
}

#[derive(Drop)]
pub(crate) struct Connection {
    number: u64,
    socket: UnixStream,
    // What came, where in it the next line begins, and how far a line end was looked for.
    came: Vec<u8>,
    start: usize,
    seen: usize,
    // What is to be written, and how much of it was.
    unsent: Vec<u8>,
    written: usize,
    // The system may have something to read. It reports each change once.
    is_ready: bool,
    // Nothing is written to it any more.
    is_mute: bool,
    stage: Stage,
}

/// What of the next line is there.
#[derive(Drop)]
enum Found {
    Line(Octets),
    Nothing,
    TooLong,
    OutOfMemory,
}

/// The token of a visitor. Those below are the doors'.
pub(crate) fn token_of(visitor: u64) -> Token {
    Token((visitor as usize).wrapping_add(1))
}

impl Connection {
    /// A visitor with this number, whose connection is registered.
    pub(crate) fn new(alloc: Global, number: u64, socket: UnixStream) -> Connection {
        Connection {
            number,
            socket,
            came: Vec::new(alloc),
            start: 0,
            seen: 0,
            unsent: Vec::new(alloc),
            written: 0,
            is_ready: true,
            is_mute: false,
            stage: Stage::Here,
        }
    }

    pub(crate) fn number(&self) -> u64 {
        self.number
    }

    pub(crate) fn is_gone(&self) -> bool {
        self.stage == Stage::Gone
    }

    /// Whether something is still to be written.
    pub(crate) fn has_unsent(&self) -> bool {
        self.written < self.unsent.len()
    }

    /// Notes that the system reported something of it.
    pub(crate) fn mark_ready(&mut self) {
        self.is_ready = true;
        self.flush();
    }

    /// What comes next of it. Where nothing does, the system will report what comes later.
    pub(crate) fn next(&mut self, alloc: Global, registry: &Registry) -> Visiting
        ensures { GivesNoComing result }
    {
        let visitor = self.number;
        for _ in 0..TRIES {
            match self.take_line(alloc) {
                Found::Line(line) => return Visiting::Line { visitor, line },
                Found::OutOfMemory => return Visiting::OutOfMemory,
                Found::TooLong => self.send_away(),
                Found::Nothing => {}
            }
            match self.stage {
                Stage::Here => {}
                Stage::Leaving => {
                    self.stage = Stage::Gone;
                    return Visiting::Left { visitor };
                }
                Stage::Gone => return Visiting::Nothing,
            }
            if !self.is_ready {
                return Visiting::Nothing;
            }
            if self.read_on().is_err() {
                return Visiting::OutOfMemory;
            }
        }
        self.rearm(registry);
        Visiting::Nothing
    }

    // The next line, where it is whole.
    fn take_line(&mut self, alloc: Global) -> Found {
        let (start, seen, len) = (self.start, self.seen, self.came.len());
        if start > seen || seen > len {
            return Found::Nothing;
        }
        let Some(more) = self.came[seen..].iter().position(|byte| *byte == LINE_END) else {
            self.seen = len;
            return if len - start > MOST_LINE {
                Found::TooLong
            } else {
                Found::Nothing
            };
        };
        let end = seen.saturating_add(more).min(len);
        if end - start > MOST_LINE {
            return Found::TooLong;
        }
        match Octets::of(alloc, &self.came[start..end]) {
            Ok(line) => {
                self.start = end.saturating_add(1);
                self.seen = self.start;
                Found::Line(line)
            }
            Err(_) => Found::OutOfMemory,
        }
    }

    // Reads once. Room for what comes is made first, so that no byte is lost for want of memory.
    fn read_on(&mut self) -> io::Result<()> {
        self.forget_lines();
        self.came.reserve(PIECE)?;
        let mut block = [0u8; PIECE];
        match self.socket.read(&mut block) {
            Ok(0) => self.stage = Stage::Leaving,
            Ok(count) => self.came.extend_from_slice(&block[..count])?,
            Err(error) => match error.kind() {
                ErrorKind::WouldBlock => self.is_ready = false,
                ErrorKind::Interrupted => {}
                _ => self.send_away(),
            },
        }
        Ok(())
    }

    // Drops the lines that were given.
    fn forget_lines(&mut self) {
        if self.start > 0 && self.start <= self.came.len() {
            drop(self.came.drain(..self.start));
            self.seen = self.seen.saturating_sub(self.start);
            self.start = 0;
        }
    }

    // Has the system report again what is there already.
    fn rearm(&mut self, registry: &Registry) {
        let both = Interest::READABLE | Interest::WRITABLE;
        let token = token_of(self.number);
        if registry.reregister(&mut self.socket, token, both).is_err() {
            self.send_away();
        }
    }

    /// Takes a line to be written, and returns whether it could. A visitor that doesn't read is sent away.
    pub(crate) fn tell(&mut self, line: &[u8]) -> bool {
        if self.is_mute || self.stage == Stage::Gone {
            return false;
        }
        let is_kept = self.keep(line);
        if is_kept {
            self.flush();
        } else {
            self.send_away();
        }
        is_kept
    }

    // Puts the line behind what is unsent, where there is room for it whole.
    fn keep(&mut self, line: &[u8]) -> bool {
        if self.written <= self.unsent.len() {
            drop(self.unsent.drain(..self.written));
            self.written = 0;
        }
        let whole = line.len().saturating_add(1);
        self.unsent.len().saturating_add(whole) <= MOST_UNSENT
            && self.unsent.reserve(whole).is_ok()
            && self.unsent.extend_from_slice(line).is_ok()
            && self.unsent.push(LINE_END).is_ok()
    }

    /// Writes what is unsent as far as the system takes it.
    pub(crate) fn flush(&mut self) {
        for _ in 0..TRIES {
            if self.written >= self.unsent.len() {
                self.unsent.clear();
                self.written = 0;
                return;
            }
            match self.socket.write(&self.unsent[self.written..]) {
                Ok(count) => self.written = self.written.saturating_add(count),
                Err(error) => match error.kind() {
                    ErrorKind::WouldBlock => return,
                    ErrorKind::Interrupted => {}
                    _ => {
                        self.send_away();
                        return;
                    }
                },
            }
        }
    }

    // Nothing more is read of it, nothing is written to it, and what came is dropped.
    fn send_away(&mut self) {
        if self.stage == Stage::Here {
            self.stage = Stage::Leaving;
        }
        self.is_mute = true;
        self.came.clear();
        self.start = 0;
        self.seen = 0;
        self.unsent.clear();
        self.written = 0;
    }
}
