//! One stream: its socket, what is still to be written, and how far it has ended.
use crate::readiness::Readiness;
use grasp_cbor::Octets;
use grasp_types::Address;
use mio::net::TcpStream;
use std::alloc::Global;
use std::io;
use std::io::{ErrorKind, Read, Write};
use std::net::{Shutdown, SocketAddr};

// The most bytes that one read gives.
const PIECE: usize = 4096;

// The most bytes that wait to be written.
const MOST_UNSENT: usize = 1 << 20;

// The most writes, and the most reads of a closing stream, in one call.
const TRIES: usize = 64;

// For how long a closing stream is kept, and for how long a dial may take. Milliseconds.
const PATIENCE: u64 = 10_000;

#[derive(Clone, Copy, Debug, PartialEq, Eq)]
enum Stage {
    // It gives bytes, and then its end.
    Open,
    // Its end was told, or the node closed it. What is unsent is written, and what comes is dropped.
    Closing,
    // It is to be forgotten.
    Gone,
}

/// Which side began a stream.
#[derive(Clone, Copy, Debug, PartialEq, Eq)]
pub(crate) enum Beginning {
    /// The peer, whose address this is. The node has sent nothing on it.
    Opened(Address),
    /// The same, where the node has sent something.
    Answered(Address),
    /// The node, which isn't connected yet. There is no address where the locator has none.
    Dialling(Option<SocketAddr>),
    /// The same, connected.
    Dialled,
}

#[derive(Drop)]
pub(crate) struct Stream {
    number: u64,
    beginning: Beginning,
    // When it began or last gave bytes; and once it is closing, since when. Milliseconds.
    since: u64,
    // None where it failed, and its end is still to be told.
    socket: Option<TcpStream>,
    unsent: Vec<u8>,
    // How many of the unsent bytes were written.
    written: usize,
    readiness: Readiness,
    // A write failed, so what remains is to read to the end.
    mute: bool,
    // The writing side is shut.
    shut: bool,
    stage: Stage,
    // Why it failed, where it did and the system said why.
    why: Option<io::Error>,
}

/// What a stream gives.
#[derive(Drop)]
pub(crate) enum News {
    Nothing,
    Bytes(Octets),
    End,
    OutOfMemory,
}

/// A dial that failed, and to where it went, where its locator has an address.
#[derive(Clone, Copy)]
pub(crate) struct FailedDial {
    pub(crate) to: Option<SocketAddr>,
    pub(crate) error: io::Error,
}

// What a read gives.
#[derive(Drop)]
enum Piece {
    Bytes(Octets),
    // The system has nothing more just now.
    Later,
    // A signal interrupted it.
    Again,
    End(Option<io::Error>),
    OutOfMemory,
}

// One read. Its buffer is made first, so that no byte is lost for want of memory.
fn read_piece(alloc: Global, socket: &mut TcpStream) -> Piece {
    let Ok(mut bytes) = Vec::from_elem(alloc, 0u8, PIECE) else {
        return Piece::OutOfMemory;
    };
    match socket.read(&mut bytes) {
        Ok(0) => Piece::End(None),
        Ok(count) => {
            bytes.truncate(count);
            Piece::Bytes(Octets::from_vec(bytes))
        }
        Err(error) => match error.kind() {
            ErrorKind::WouldBlock => Piece::Later,
            ErrorKind::Interrupted => Piece::Again,
            _ => Piece::End(Some(error)),
        },
    }
}

// Reads what is there and drops it. Returns whether more may come.
fn drop_what_comes(socket: &mut TcpStream) -> bool {
    let mut block = [0u8; 1024];
    for _ in 0..TRIES {
        match socket.read(&mut block) {
            Ok(0) => return false,
            Ok(_) => {}
            Err(error) => match error.kind() {
                ErrorKind::WouldBlock => return true,
                ErrorKind::Interrupted => {}
                _ => return false,
            },
        }
    }
    true
}

impl Stream {
    /// A stream that begins now, over this socket.
    pub(crate) fn new(
        alloc: Global,
        number: u64,
        beginning: Beginning,
        now: u64,
        socket: TcpStream,
    ) -> Stream {
        let socket = Some(socket);
        Stream {
            socket,
            ..Stream::failed(alloc, number, beginning, now, None)
        }
    }

    /// A stream that failed at once.
    pub(crate) fn failed(
        alloc: Global,
        number: u64,
        beginning: Beginning,
        now: u64,
        why: Option<io::Error>,
    ) -> Stream {
        Stream {
            number,
            beginning,
            since: now,
            socket: None,
            unsent: Vec::new(alloc),
            written: 0,
            readiness: Readiness::Idle,
            mute: false,
            shut: false,
            stage: Stage::Open,
            why,
        }
    }

    pub(crate) fn number(&self) -> u64 {
        self.number
    }

    pub(crate) fn is_closing(&self) -> bool {
        self.stage == Stage::Closing
    }

    /// Whether it is closing, and all was written.
    pub(crate) fn is_written(&self) -> bool {
        self.stage == Stage::Closing && !self.has_unsent()
    }

    /// Whether this address opened it, and it isn't closing.
    pub(crate) fn is_open_of(&self, address: &Address) -> bool {
        self.stage == Stage::Open
            && match &self.beginning {
                Beginning::Opened(from) | Beginning::Answered(from) => from == address,
                Beginning::Dialling(_) | Beginning::Dialled => false,
            }
    }

    /// Whether a peer opened it and has said nothing for so long, and the node has said nothing at all.
    pub(crate) fn is_silent(&self, now: u64, silence: u64) -> bool {
        self.stage == Stage::Open
            && matches!(&self.beginning, Beginning::Opened(_))
            && now >= self.since.saturating_add(silence)
    }

    /// Why the node's dial failed, where it did and its end is told now.
    pub(crate) fn failed_dial(&self) -> Option<FailedDial> {
        match (&self.beginning, &self.why) {
            (Beginning::Dialling(to), Some(error)) => Some(FailedDial {
                to: *to,
                error: *error,
            }),
            _ => None,
        }
    }

    // Whether the node dialled it and isn't connected.
    fn is_dialling(&self) -> bool {
        matches!(&self.beginning, Beginning::Dialling(_))
    }

    pub(crate) fn is_gone(&self) -> bool {
        self.stage == Stage::Gone
    }

    /// Whether it may have something to give at once.
    pub(crate) fn is_ready(&self) -> bool {
        self.stage == Stage::Open && (self.readiness.is_ready() || self.socket.is_none())
    }

    /// Notes that a wait is over, and whether the system reported something to read.
    pub(crate) fn after_wait(&mut self) {
        self.readiness = self.readiness.after_wait();
    }

    /// Notes that the system reported something to read.
    pub(crate) fn mark_ready(&mut self) {
        self.readiness = Readiness::Ready;
    }

    /// Notes that the system reported that it can be written to.
    pub(crate) fn mark_connected(&mut self) {
        if self.is_dialling() {
            self.beginning = Beginning::Dialled;
        }
    }

    /// The next bytes, or the end.
    pub(crate) fn next(&mut self, alloc: Global, now: u64) -> News {
        if self.stage != Stage::Open {
            return News::Nothing;
        }
        let Some(socket) = &mut self.socket else {
            self.forget();
            return News::End;
        };
        if !self.readiness.is_ready() {
            return News::Nothing;
        }
        match read_piece(alloc, socket) {
            Piece::Bytes(bytes) => {
                self.since = now;
                self.mark_connected();
                News::Bytes(bytes)
            }
            Piece::Later => {
                self.readiness = Readiness::Idle;
                News::Nothing
            }
            Piece::Again => News::Nothing,
            Piece::End(why) => {
                self.why = why;
                self.end(now);
                News::End
            }
            Piece::OutOfMemory => {
                self.readiness = Readiness::Later;
                News::OutOfMemory
            }
        }
    }

    /// Takes bytes to be written, and returns whether it could.
    pub(crate) fn send(&mut self, bytes: &[u8]) -> bool {
        match self.stage {
            Stage::Open => self.take(bytes),
            Stage::Closing | Stage::Gone => true,
        }
    }

    /// Ends it: what is unsent is written, then the writing side is shut, and what comes is dropped for a while. To drop the
    /// socket at once could reset the stream, and so lose its last bytes on the other side.
    pub(crate) fn close(&mut self, now: u64) {
        self.begin_closing(now);
        self.linger(now);
    }

    /// Goes on with what is unsent, and with closing. A dial that takes too long fails.
    pub(crate) fn go_on(&mut self, now: u64) {
        match self.stage {
            Stage::Open => {
                if self.has_unsent() {
                    self.flush();
                }
                if self.is_dialling() && self.is_past(now) && self.socket.is_some() {
                    self.socket = None;
                    self.forget_unsent();
                    self.why = Some(io::Error::from(ErrorKind::TimedOut));
                }
            }
            Stage::Closing => self.linger(now),
            Stage::Gone => {}
        }
    }

    // Whether its patience is over.
    fn is_past(&self, now: u64) -> bool {
        now >= self.since.saturating_add(PATIENCE)
    }

    fn begin_closing(&mut self, now: u64) {
        if self.stage == Stage::Open {
            self.stage = Stage::Closing;
            self.since = now;
        }
    }

    /// Lets it go as it is.
    pub(crate) fn forget(&mut self) {
        self.stage = Stage::Gone;
        self.socket = None;
        self.forget_unsent();
    }

    fn take(&mut self, bytes: &[u8]) -> bool {
        if let Beginning::Opened(from) = self.beginning {
            self.beginning = Beginning::Answered(from);
        }
        if self.mute || self.socket.is_none() {
            return false;
        }
        if self.keep(bytes) {
            self.flush();
            !self.mute
        } else {
            self.socket = None;
            self.forget_unsent();
            false
        }
    }

    // Puts the bytes behind those that are unsent, where there is room.
    fn keep(&mut self, bytes: &[u8]) -> bool {
        if self.written <= self.unsent.len() {
            drop(self.unsent.drain(..self.written));
            self.written = 0;
        }
        self.unsent.len().saturating_add(bytes.len()) <= MOST_UNSENT
            && self.unsent.extend_from_slice(bytes).is_ok()
    }

    fn has_unsent(&self) -> bool {
        self.written < self.unsent.len()
    }

    fn forget_unsent(&mut self) {
        self.unsent.clear();
        self.written = 0;
    }

    // Writes what is unsent as far as the system takes it.
    fn flush(&mut self) {
        for _ in 0..TRIES {
            if self.written >= self.unsent.len() {
                self.forget_unsent();
                return;
            }
            let Some(socket) = &mut self.socket else {
                return;
            };
            match socket.write(&self.unsent[self.written..]) {
                Ok(count) => self.written = self.written.saturating_add(count),
                Err(error) => match error.kind() {
                    ErrorKind::WouldBlock => return,
                    ErrorKind::Interrupted => {}
                    _ => {
                        self.mute = true;
                        self.readiness = Readiness::Ready;
                        self.forget_unsent();
                        return;
                    }
                },
            }
        }
    }

    // The other side has ended it, and this is told now.
    fn end(&mut self, now: u64) {
        if self.has_unsent() {
            self.begin_closing(now);
        } else {
            self.forget();
        }
    }

    // Goes on with closing.
    fn linger(&mut self, now: u64) {
        if self.is_past(now) || self.mute {
            self.forget();
            return;
        }
        self.flush();
        let unsent = self.has_unsent();
        let Some(socket) = &mut self.socket else {
            self.forget();
            return;
        };
        if !unsent && !self.shut && socket.shutdown(Shutdown::Write).is_ok() {
            self.shut = true;
        }
        if !drop_what_comes(socket) && !unsent {
            self.forget();
        }
    }
}
