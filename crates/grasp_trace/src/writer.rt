//! What tells the traffic of links.

ghost use Rattle.std.specs.Prelude.{◌≡◌, None, Bool, ℕ};
ghost use Rattle.grasp_trace.specs.Lines.{opening_line, dial_line};
ghost use Rattle.grasp_trace.specs.Messages.{Begins, TellsPiece};
ghost use Rattle.grasp_trace.specs.Sheet.{IsQuiet, TellsOne};
ghost use Rattle.grasp_trace.specs.Trace.{page_sheet, writer_trace};
ghost use Rattle.grasp_trace.specs.Traffic.{sent_word, TellsInput, TellsOutput, WatchesInput, WatchesOutput};
ghost use Rattle.grasp_trace.specs.Watching.{cutters_of, ChangesAlone};

use crate::page::Page;
use crate::watched::Watched;
use grasp_io::{Sent, Sink};
use grasp_types::{Address, Input, Locator, Output};
use std::alloc::Global;

/// Tells what comes and what goes, and watches the streams.
#[derive(Drop)]
pub(crate) struct Writer<K: Sink + Drop> {
    pub(crate) page: Page<K>,
    streams: Watched,
}

/// What became of an output.
fn word_of(sent: Sent) -> &'static str
    ensures { result.now ≡ sent_word sent }
{
    match sent {
        Sent::Sent => "sent",
        Sent::Lost => "lost",
        Sent::Failed => "failed",
    }
}

impl<K: Sink + Drop> Writer<K> {
    /// Nothing is written yet, and no stream is watched.
    pub(crate) fn new(alloc: Global, sink: K) -> Self
        ensures sink { result.page.sink ≡ sink }
        ensures none { result.page.left_out ≡ 0 }
        ensures unwatched { (received : Bool) (stream : ℕ) → cutters_of result.streams received stream ≡ None }
    {
        Writer {
            page: Page::new(alloc, sink),
            streams: Watched::new(alloc),
        }
    }

    /// What an input tells.
    pub(crate) fn received(&mut self, input: &Input)
        ensures written { TellsInput input.now (writer_trace K.written K.faults self.old) (writer_trace K.written K.faults self.new) }
        ensures watched { WatchesInput input.now (writer_trace K.written K.faults self.old) (writer_trace K.written K.faults self.new) }
    {
        match input {
            Input::Datagram { link, from, bytes } => {
                self.page.datagram("received", *link, *from, bytes.bytes());
            }
            Input::Opened { stream, from } => {
                self.opened(*stream, from);
            }
            Input::Bytes { stream, bytes } => self.piece("received", *stream, true, bytes.bytes()),
            Input::Closed { stream } => {
                self.streams.end(*stream);
                self.page.closing("received", *stream);
            }
            Input::Api { .. } | Input::Drain { .. } => {}
        }
    }

    /// What an output tells, and what became of it.
    pub(crate) fn handed_over(&mut self, output: &Output, sent: Sent)
        ensures written { TellsOutput output.now sent (writer_trace K.written K.faults self.old) (writer_trace K.written K.faults self.new) }
        ensures watched { WatchesOutput output.now (writer_trace K.written K.faults self.old) (writer_trace K.written K.faults self.new) }
    {
        match output {
            Output::Datagram { link, to, bytes } => {
                self.page.datagram(word_of(sent), *link, *to, bytes.bytes());
            }
            Output::Dial { stream, to } => {
                self.dialled(word_of(sent), *stream, to);
            }
            Output::Send { stream, bytes } => self.piece(
                word_of(sent),
                *stream,
                false,
                bytes.bytes(),
            ),
            Output::Close { stream } => {
                self.streams.end(*stream);
                self.page.closing(word_of(sent), *stream);
            }
        }
    }

    /// A peer opened a stream.
    fn opened(&mut self, stream: u64, from: &Address)
        ensures told { TellsOne (λ line. line ≡ opening_line stream from.now) (page_sheet K.written K.faults self.old.page)
            (page_sheet K.written K.faults self.new.page) }
        ensures begins { Begins stream (writer_trace K.written K.faults self.old) (writer_trace K.written K.faults self.new) }
    {
        self.begin(stream);
        self.page.opening(stream, from);
    }

    /// A stream is dialled.
    fn dialled(&mut self, what: &str, stream: u64, to: &Locator)
        ensures told { TellsOne (λ line. line ≡ dial_line what.now stream to.now) (page_sheet K.written K.faults self.old.page)
            (page_sheet K.written K.faults self.new.page) }
        ensures begins { Begins stream (writer_trace K.written K.faults self.old) (writer_trace K.written K.faults self.new) }
    {
        self.begin(stream);
        self.page.dial(what, stream, to);
    }

    /// A stream begins. Where there is no memory to watch it, something is left out.
    fn begin(&mut self, stream: u64)
        ensures quiet { IsQuiet (page_sheet K.written K.faults self.old.page) (page_sheet K.written K.faults self.new.page) }
        ensures begins { Begins stream (writer_trace K.written K.faults self.old) (writer_trace K.written K.faults self.new) }
    {
        if self.streams.begin(stream) {
            return;
        }
        self.page.leave_out();
    }

    /// A piece of a stream, of which each message that is whole now is told, with this word for what became of it.
    fn piece(&mut self, what: &str, stream: u64, received: bool, piece: &[u8])
        ensures told { TellsPiece what.now received stream piece.now (writer_trace K.written K.faults self.old)
            (writer_trace K.written K.faults self.new) }
        ensures alone { ChangesAlone received stream (cutters_of self.old.streams) (cutters_of self.new.streams) }
    {
        match self.streams.take(stream, received) {
            Some(cutter) => {
                let left = self.page.messages(what, stream, cutter, piece);
                self.streams.put(stream, received, left);
            }
            None => {}
        }
    }
}
