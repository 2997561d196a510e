//! A source and a sink in memory, in pieces as small as wanted, with calls that fail.
ghost use Rattle.std.specs.Prelude.{◌≡◌, ◌<◌, ◌≤◌, min, [], length, take, drop, Some, IfOk, OnErr, is_err, IsErr, IsTrue};
ghost use Rattle.std.specs.Io.KnownBytes.{Consumes, Appends, Keeps};
ghost use Rattle.grasp_io.specs.Faults.{Rose};
ghost use Rattle.grasp_io.specs.Known.{EndsExactly};
ghost use Rattle.grasp_io.specs.Memory.{SourceState, SinkState, one_more, next_fails};

use crate::{Failed, Sink, Source};
use std::alloc::Global;
use std::marker::Model;

/// A source whose content stands in memory. Its calls are numbered from 1.
#[derive(Drop)]
pub struct MemSource<'a> {
    left: &'a [u8],
    most: usize,
    failing: &'a [u64],
    calls: u64,
    faults: u64,
}

impl<'a> Model for MemSource<'a> {
    ghost Value = { SourceState };

    ghost view = { λ s. record {
      left = s.left.now;
      most = s.most;
      failing = s.failing.now;
      calls = s.calls;
      faults = s.faults;
    } };

    ghost invariant = { λ s. 0 < s.most };
}

impl<'a> MemSource<'a> {
    /// A source with this content, which gives as much as a call has room for and never fails.
    pub fn new(content: &'a [u8]) -> Self
        ensures { result ≡ record {
          left = content.now;
          most = usize.MAX;
          failing = [];
          calls = 0;
          faults = 0;
        } }
    {
        MemSource {
            left: content,
            most: usize::MAX,
            failing: &[],
            calls: 0,
            faults: 0,
        }
    }

    /// The same source, but a call gives at most so many bytes.
    pub fn in_pieces(self, most: usize) -> Self
        requires { 0 < most }
        ensures { result ≡ record self.entry { most = most } }
    {
        MemSource { most, ..self }
    }

    /// The same source, but the calls with these numbers fail.
    pub fn failing_at(self, calls: &'a [u64]) -> Self
        ensures { result ≡ record self.entry { failing = calls.now } }
    {
        MemSource {
            failing: calls,
            ..self
        }
    }

    /// What is left to read.
    pub fn left(&self) -> &[u8]
        ensures { result.now ≡ self.now.left }
    {
        self.left
    }

    /// How many calls there were so far. It stands still at the greatest 64-bit number.
    pub fn calls(&self) -> u64
        ensures { result ≡ self.now.calls }
    {
        self.calls
    }

    /// How many of them failed.
    pub fn faults(&self) -> u64
        ensures { result ≡ self.now.faults }
    {
        self.faults
    }
}

impl Source for MemSource<'_> {
    ghost left = { λ s. Some s.left };

    ghost faults = { λ s. s.faults };

    fn read(&mut self, into: &mut [u8]) -> Result<usize, Failed>
        ensures count { IfOk result (λ n. n ≤ length into.new) }
        ensures bytes { IfOk result (λ n. Consumes (Some self.old.left) (Some self.new.left)
            (take n into.new)) }
        ensures end { IfOk result (λ n. 0 < length into.new → EndsExactly (Some self.old.left) n) }
        ensures unchanged { OnErr result (Keeps (Some self.old.left) (Some self.new.left)) }
        ensures fault { OnErr result (Rose self.old.faults self.new.faults) }
        ensures never_falls { self.old.faults ≤ self.new.faults }
        ensures fails { is_err result ≡ next_fails self.old.failing self.old.calls }
        ensures given { IfOk result (λ n. n ≡ min (min self.old.most (length into.old))
            (length self.old.left)) }
        ensures only { self.new ≡ record self.old {
          left = self.new.left;
          calls = one_more self.old.calls;
          faults = self.new.faults;
        } }
        ensures counted { IfOk result (λ _. self.new.faults ≡ self.old.faults) }
        ensures fault_is_one { self.new.faults ≤ one_more self.old.faults }
    {
        self.calls = self.calls.saturating_add(1);
        if self.failing.contains(&self.calls) {
            self.faults = self.faults.saturating_add(1);
            return Err(Failed);
        }
        let given = self.most.min(into.len()).min(self.left.len());
        let (now, later) = self.left.split_at(given);
        into[..given].copy_from_slice(now);
        self.left = later;
        Ok(given)
    }
}

/// A sink that keeps in memory what it takes. Its calls are numbered from 1.
#[derive(Drop)]
pub struct MemSink<'a> {
    written: Vec<u8>,
    most: usize,
    failing: &'a [u64],
    calls: u64,
    faults: u64,
}

impl<'a> Model for MemSink<'a> {
    ghost Value = { SinkState };

    ghost view = { λ s. record {
      written = s.written.items;
      most = s.most;
      failing = s.failing.now;
      calls = s.calls;
      faults = s.faults;
    } };
}

impl<'a> MemSink<'a> {
    /// A sink to which nothing is written yet, which takes each piece whole and never fails but for
    /// want of memory.
    pub fn new(alloc: Global) -> Self
        ensures { result ≡ record {
          written = [];
          most = usize.MAX;
          failing = [];
          calls = 0;
          faults = 0;
        } }
    {
        MemSink {
            written: Vec::new(alloc),
            most: usize::MAX,
            failing: &[],
            calls: 0,
            faults: 0,
        }
    }

    /// The same sink, but a call takes at most so many bytes. With 0 it takes nothing.
    pub fn in_pieces(self, most: usize) -> Self
        ensures { result ≡ record self.entry { most = most } }
    {
        MemSink { most, ..self }
    }

    /// The same sink, but the calls with these numbers fail.
    pub fn failing_at(self, calls: &'a [u64]) -> Self
        ensures { result ≡ record self.entry { failing = calls.now } }
    {
        MemSink {
            failing: calls,
            ..self
        }
    }

    /// How many calls there were so far. It stands still at the greatest 64-bit number.
    pub fn calls(&self) -> u64
        ensures { result ≡ self.now.calls }
    {
        self.calls
    }

    /// How many of them failed, or took nothing of a piece that wasn't empty.
    pub fn faults(&self) -> u64
        ensures { result ≡ self.now.faults }
    {
        self.faults
    }

    /// What was written so far.
    pub fn written(&self) -> &[u8]
        ensures { result.now ≡ self.now.written }
    {
        &self.written
    }
}

impl Sink for MemSink<'_> {
    ghost written = { λ s. Some s.written };

    ghost faults = { λ s. s.faults };

    // Where memory is wanted the write fails, as at a number that is to fail.
    fn write(&mut self, piece: &[u8]) -> Result<usize, Failed>
        ensures count { IfOk result (λ n. n ≤ length piece.now) }
        ensures bytes { IfOk result (λ n. Appends (Some self.old.written) (Some self.new.written)
            (take n piece.now)) }
        ensures nothing { IfOk result (λ n. n ≡ 0 → 0 < length piece.now →
            Rose self.old.faults self.new.faults) }
        ensures unchanged { OnErr result (Keeps (Some self.old.written) (Some self.new.written)) }
        ensures fault { OnErr result (Rose self.old.faults self.new.faults) }
        ensures never_falls { self.old.faults ≤ self.new.faults }
        ensures fails { IsTrue (next_fails self.old.failing self.old.calls) → IsErr result }
        ensures taken { IfOk result (λ n. n ≡ min self.old.most (length piece.now)) }
        ensures only { self.new ≡ record self.old {
          written = self.new.written;
          calls = one_more self.old.calls;
          faults = self.new.faults;
        } }
        ensures counted { IfOk result (λ n. 0 < n → self.new.faults ≡ self.old.faults) }
        ensures counted_for_none { IfOk result (λ _. piece.now ≡ [] → self.new.faults ≡ self.old.faults) }
        ensures fault_is_one { self.new.faults ≤ one_more self.old.faults }
    {
        self.calls = self.calls.saturating_add(1);
        if self.failing.contains(&self.calls) {
            self.faults = self.faults.saturating_add(1);
            return Err(Failed);
        }
        let taken = self.most.min(piece.len());
        if self.written.extend_from_slice(&piece[..taken]).is_err() {
            self.faults = self.faults.saturating_add(1);
            return Err(Failed);
        }
        if taken == 0 && !piece.is_empty() {
            self.faults = self.faults.saturating_add(1);
        }
        Ok(taken)
    }
}
