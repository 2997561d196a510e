//! A sink of lines.

ghost use Rattle.std.specs.Prelude.{◌≡◌, ◌<◌, None, Some, Err, IfOk, OnErr, string_bytes};
ghost use Rattle.grasp_trace.specs.Lines.{IsDatagramLine, message_line, fault_line, opening_line, dial_line, closing_line};
ghost use Rattle.grasp_trace.specs.Messages.{TellsLast, TellsCut, IsAnswered, Telling, HasTold, AfterNext, TellsWith};
ghost use Rattle.grasp_trace.specs.Sheet.{Tells, IsLeftOut, TellsOne};
ghost use Rattle.grasp_trace.specs.Trace.{page_sheet};
ghost use Rattle.grasp_wire.specs.Cutter.{Past};
ghost use Rattle.grasp_wire.specs.Stands.{Stands, cut_limit, waiting_count};

use crate::lines;
use crate::watched::{feed, place_of};
use grasp_cbor::OutOfMemory;
use grasp_io::{Sink, write_all};
use grasp_types::{Address, Locator, Message};
use grasp_wire::{CutFault, Cutter};
use std::alloc::Global;

/// A sink of lines, and how many of them were left out.
#[derive(Drop)]
pub(crate) struct Page<K: Sink + Drop> {
    alloc: Global,
    pub(crate) sink: K,
    // How many lines were left out for want of memory, or 2^64 - 1.
    pub(crate) left_out: u64,
}

impl<K: Sink + Drop> Page<K> {
    /// Nothing is written yet.
    pub(crate) fn new(alloc: Global, sink: K) -> Self
        ensures sink { result.sink ≡ sink }
        ensures none { result.left_out ≡ 0 }
    {
        Page {
            alloc,
            sink,
            left_out: 0,
        }
    }

    /// Writes a line, or counts it as left out.
    fn write(&mut self, line: Result<String, OutOfMemory>)
        ensures told { IfOk line (λ t. Tells (string_bytes t) (page_sheet K.written K.faults self.old) (page_sheet K.written K.faults self.new)) }
        ensures left { OnErr line (IsLeftOut (page_sheet K.written K.faults self.old) (page_sheet K.written K.faults self.new)) }
    {
        match line {
            Ok(text) => {
                let _written = write_all(&mut self.sink, text.as_bytes());
            }
            Err(OutOfMemory) => self.leave_out(),
        }
    }

    /// One line more is left out.
    pub(crate) fn leave_out(&mut self)
        ensures { IsLeftOut (page_sheet K.written K.faults self.old) (page_sheet K.written K.faults self.new) }
    {
        self.left_out = self.left_out.saturating_add(1);
    }

    /// Tells a datagram.
    pub(crate) fn datagram(&mut self, what: &str, link: u8, neighbour: u8, bytes: &[u8])
        ensures { TellsOne (IsDatagramLine what.now link neighbour bytes.now) (page_sheet K.written K.faults self.old)
            (page_sheet K.written K.faults self.new) }
    {
        self.write(lines::datagram(self.alloc, what, link, neighbour, bytes));
    }

    /// Tells a stream that a peer opened.
    pub(crate) fn opening(&mut self, stream: u64, from: &Address)
        ensures { TellsOne (λ line. line ≡ opening_line stream from.now) (page_sheet K.written K.faults self.old)
            (page_sheet K.written K.faults self.new) }
    {
        self.write(lines::opening(self.alloc, stream, from));
    }

    /// Tells a stream that is dialled.
    pub(crate) fn dial(&mut self, what: &str, stream: u64, to: &Locator)
        ensures { TellsOne (λ line. line ≡ dial_line what.now stream to.now) (page_sheet K.written K.faults self.old)
            (page_sheet K.written K.faults self.new) }
    {
        self.write(lines::dial(self.alloc, what, stream, to));
    }

    /// Tells a stream that ends.
    pub(crate) fn closing(&mut self, what: &str, stream: u64)
        ensures { TellsOne (λ line. line ≡ closing_line what.now stream) (page_sheet K.written K.faults self.old)
            (page_sheet K.written K.faults self.new) }
    {
        self.write(lines::closing(self.alloc, what, stream));
    }

    /// Tells a message on a stream.
    fn message(&mut self, what: &str, stream: u64, message: &Message)
        ensures { Tells (message_line what.now stream message.now) (page_sheet K.written K.faults self.old) (page_sheet K.written K.faults self.new) }
    {
        self.write(lines::message(self.alloc, what, stream, message));
    }

    /// Tells bytes of a stream that are no message, at this place.
    fn bad_bytes(&mut self, what: &str, stream: u64, place: u64)
        ensures { Tells (fault_line what.now stream place) (page_sheet K.written K.faults self.old) (page_sheet K.written K.faults self.new) }
    {
        self.write(lines::fault(self.alloc, what, stream, place));
    }

    /// Tells a fault of a stream, or leaves a line out where memory was wanted.
    fn fault(&mut self, what: &str, stream: u64, fault: &CutFault)
        ensures { TellsLast what.now stream (Err fault.now) (page_sheet K.written K.faults self.old) (page_sheet K.written K.faults self.new) }
    {
        match place_of(fault) {
            Some(place) => self.bad_bytes(what, stream, place),
            None => self.leave_out(),
        }
    }

    /// Tells each message that is whole with this piece, and gives the cutter back where it waits for more.
    pub(crate) fn messages(
        &mut self,
        what: &str,
        stream: u64,
        mut cutter: Cutter,
        piece: &[u8],
    ) -> Option<Cutter>
        ensures { TellsWith what.now stream piece.now (Some cutter) result (page_sheet K.written K.faults self.old)
            (page_sheet K.written K.faults self.new) }
    {
        if feed(&mut cutter, piece) {
            return self.tell(what, stream, cutter);
        }
        self.leave_out();
        None
    }

    /// Tells each message that is whole, and gives the cutter back where it waits for more.
    fn tell(&mut self, what: &str, stream: u64, mut cutter: Cutter) -> Option<Cutter>
        ensures { (past : Past) → Stands cutter past
            → TellsCut what.now stream (cut_limit cutter) past result (page_sheet K.written K.faults self.old)
            (page_sheet K.written K.faults self.new) }
    {
        if self.tell_all(what, stream, &mut cutter) {
            return Some(cutter);
        }
        None
    }

    /// Tells each message that is whole, and what ends them. Returns whether the cutter waits for more.
    fn tell_all(&mut self, what: &str, stream: u64, cutter: &mut Cutter) -> bool
        ensures { (past : Past) → Stands cutter.old past
            → IsAnswered what.now stream (cut_limit cutter.old) past result cutter.new (page_sheet K.written K.faults self.old)
            (page_sheet K.written K.faults self.new) }
    {
        loop {
            if let Some(waits) = self.tell_next(what, stream, cutter) {
                return waits;
            }
        }
    }

    /// Tells the next message, or answers whether the cutter waits for more.
    fn tell_next(&mut self, what: &str, stream: u64, cutter: &mut Cutter) -> Option<bool>
        ensures then { (t : Telling) → HasTold what.now stream t cutter.old (page_sheet K.written K.faults self.old)
            → AfterNext what.now stream t cutter.new result (page_sheet K.written K.faults self.new) }
        ensures less { result ≡ None → waiting_count cutter.new < waiting_count cutter.old }
    {
        match cutter.next() {
            Ok(Some(message)) => {
                self.message(what, stream, &message);
                drop(message);
                None
            }
            Ok(None) => Some(true),
            Err(fault) => {
                self.fault(what, stream, &fault);
                Some(false)
            }
        }
    }
}
