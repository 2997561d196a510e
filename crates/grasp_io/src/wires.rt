//! The sockets of a node: one for datagrams, one that listens, and one for each stream.
ghost use Rattle.grasp_io.specs.Links.{MayCome, GivesNoOpening};

use crate::clock::millis_since;
use crate::counters::add_one;
use crate::dial::{dial_from, keep_alive};
use crate::peers::{Peers, address_of, dial_addr, source_of};
use crate::readiness::Readiness;
use crate::stream::{Beginning, News, Stream};
use crate::{Asked, Counters, Guard, LinkFault, LinkPlan};
use grasp_cbor::Octets;
use grasp_types::{Address, Input, Locator, Proto};
use mio::net::{TcpListener, TcpStream, UdpSocket};
use mio::unix::SourceFd;
use mio::{Events, Interest, Poll, Token};
use std::alloc::Global;
use std::io::ErrorKind;
use std::net::{Net, SocketAddr};
use std::os::fd::RawFd;
use std::time::{Duration, Instant};
use std::{io, time};

const DATAGRAMS: Token = Token(0);

const LISTENER: Token = Token(1);

// A descriptor that is watched beside the sockets. No stream has this token.
const WATCHED: Token = Token(usize::MAX);

// The most events of one wait.
const MOST_EVENTS: usize = 64;

// The most streams, with those that are closing.
const MOST_STREAMS: usize = 128;

const MOST_OPENED: u64 = 1 << 62;

// No datagram is longer.
const LONGEST_DATAGRAM: usize = 65536;

// How many datagrams of others than neighbours are passed over at a time.
const MOST_STRANGERS: usize = 64;

// How often, and how long each time, the end waits for streams. Milliseconds.
const SETTLING_WAITS: u32 = 50;

const SETTLING_WAIT: u64 = 20;

#[derive(Drop)]
pub(crate) struct Wires {
    poll: Poll,
    events: Events,
    datagrams: UdpSocket,
    listener: TcpListener,
    peers: Peers,
    // Where dials come from, where that is stated.
    source: Option<SocketAddr>,
    streams: Vec<Stream>,
    // Where a datagram is read to.
    block: Vec<u8>,
    datagram: Readiness,
    opening: Readiness,
    // The descriptor that is watched was ready.
    called: bool,
    // When the clock was first read, and the milliseconds since. Without a clock it stays 0.
    start: Option<Instant>,
    now: u64,
    pub(crate) counters: Counters,
    pub(crate) fault: Option<LinkFault>,
    has_failed: bool,
    pub(crate) stranger: Option<SocketAddr>,
    // Which of the three kinds comes first, and which stream came last.
    turn: u8,
    place: usize,
}

fn token_of(stream: u64) -> Token {
    Token(stream.wrapping_add(2) as usize)
}

impl Wires {
    /// The sockets of this plan, with a descriptor that is watched beside them. Both that take what comes are at the address
    /// where the node listens.
    pub(crate) fn open<N: Net + time::Clock>(
        net: &N,
        alloc: Global,
        plan: &LinkPlan,
        watched: Option<RawFd>,
    ) -> Result<Wires, LinkFault> {
        let Some(at) = dial_addr(&plan.listen) else {
            return Err(open_fault(io::Error::from(ErrorKind::InvalidInput)));
        };
        let Ok(peers) = Peers::of(alloc, &plan.links) else {
            return Err(open_fault(io::Error::from(ErrorKind::OutOfMemory)));
        };
        let listener = match TcpListener::bind(net, at) {
            Ok(listener) => listener,
            Err(error) => return Err(listen_fault(Proto::Tcp, at, error)),
        };
        let datagrams = match UdpSocket::bind(net, at) {
            Ok(datagrams) => datagrams,
            Err(error) => return Err(listen_fault(Proto::Udp, at, error)),
        };
        match Wires::of(net, alloc, peers, listener, datagrams) {
            Ok(mut wires) => {
                wires.source = source_of(at);
                match wires.watch(watched) {
                    Ok(()) => Ok(wires),
                    Err(error) => Err(open_fault(error)),
                }
            }
            Err(error) => Err(open_fault(error)),
        }
    }

    fn of<N: Net + time::Clock>(
        net: &N,
        alloc: Global,
        peers: Peers,
        listener: TcpListener,
        datagrams: UdpSocket,
    ) -> io::Result<Wires> {
        let mut listener = listener;
        let mut datagrams = datagrams;
        let poll = Poll::new(net)?;
        let registry = poll.registry();
        registry.register(&mut datagrams, DATAGRAMS, Interest::READABLE)?;
        registry.register(&mut listener, LISTENER, Interest::READABLE)?;
        Ok(Wires {
            poll,
            events: Events::with_capacity(alloc, MOST_EVENTS)?,
            datagrams,
            listener,
            peers,
            source: None,
            streams: Vec::with_capacity(alloc, MOST_STREAMS)?,
            block: Vec::from_elem(alloc, 0u8, LONGEST_DATAGRAM)?,
            datagram: Readiness::Idle,
            opening: Readiness::Idle,
            called: false,
            start: Instant::now(net).ok(),
            now: 0,
            counters: Counters::new(),
            fault: None,
            has_failed: false,
            stranger: None,
            turn: 0,
            place: 0,
        })
    }

    /// Watches a descriptor beside the sockets: an ask ends once it is ready.
    pub(crate) fn watch(&mut self, watched: Option<RawFd>) -> io::Result<()> {
        match watched {
            Some(fd) => {
                let registry = self.poll.registry();
                registry.register(&mut SourceFd(&fd), WATCHED, Interest::READABLE)
            }
            None => Ok(()),
        }
    }

    /// The next input, for which it waits at most so many milliseconds. What is no input ends no wait.
    pub(crate) fn ask<N: time::Clock>(
        &mut self,
        clock: &N,
        alloc: Global,
        guard: Option<&Guard>,
        opened: u64,
        wait_ms: u32,
    ) -> Asked
        ensures { MayCome opened result }
    {
        let tells_time = self.read_clock(clock);
        let end = self.now.saturating_add(u64::from(wait_ms));
        for _ in 0..u64::MAX {
            let left = end.saturating_sub(self.now);
            let waited = self.wait(Duration::from_millis(left));
            self.read_clock(clock);
            if let Err(error) = waited {
                self.note_fault(LinkFault::Wait { error });
                return Asked::Nothing;
            }
            self.tidy();
            match self.next(alloc, guard, opened) {
                Asked::Nothing => {}
                asked => return asked,
            }
            if self.called || !tells_time || self.now >= end {
                self.called = false;
                return Asked::Nothing;
            }
        }
        Asked::Nothing
    }

    // Reads the clock, and returns whether it could be read.
    fn read_clock<N: time::Clock>(&mut self, clock: &N) -> bool {
        let Some(start) = self.start else {
            return false;
        };
        match millis_since(clock, start) {
            Some(now) => {
                self.now = self.now.max(now);
                true
            }
            None => false,
        }
    }

    fn note_fault(&mut self, fault: LinkFault) {
        self.has_failed = true;
        self.fault = Some(fault);
    }

    /// Whether something failed since the last such question.
    pub(crate) fn take_failed(&mut self) -> bool {
        let failed = self.has_failed;
        self.has_failed = false;
        failed
    }

    // Waits until something comes, at most so long, and notes for which socket. A signal may end the wait early.
    fn wait(&mut self, wait: Duration) -> io::Result<()> {
        let wait = if self.is_ready() {
            Duration::ZERO
        } else {
            wait
        };
        if let Err(error) = self.poll.poll(&mut self.events, Some(wait)) {
            if error.kind() != ErrorKind::Interrupted {
                return Err(error);
            }
        }
        self.datagram = self.datagram.after_wait();
        self.opening = self.opening.after_wait();
        for stream in self.streams.iter_mut() {
            stream.after_wait();
        }
        self.note_events();
        Ok(())
    }

    fn note_events(&mut self) {
        for event in &self.events {
            let token = event.token();
            if token == DATAGRAMS {
                self.datagram = Readiness::Ready;
            } else if token == LISTENER {
                self.opening = Readiness::Ready;
            } else if token == WATCHED {
                self.called = true;
            } else if let Some(stream) = self
                .streams
                .iter_mut()
                .find(|stream| token_of(stream.number()) == token)
            {
                let failed = event.is_error() || event.is_read_closed();
                if event.is_writable() && !failed {
                    stream.mark_connected();
                }
                if event.is_readable() || failed {
                    stream.mark_ready();
                }
            }
        }
    }

    /// Goes on with what is unsent and with what is closing.
    pub(crate) fn tidy(&mut self) {
        for stream in self.streams.iter_mut() {
            stream.go_on(self.now);
        }
        self.streams.retain(|stream| !stream.is_gone());
    }

    /// The next input, where something is there. The kinds take turns to come first, and so do the streams.
    fn next(&mut self, alloc: Global, guard: Option<&Guard>, opened: u64) -> Asked
        ensures { MayCome opened result }
    {
        self.turn = (self.turn % 3 + 1) % 3;
        for later in 0..3 {
            let asked = match (self.turn % 3 + later) % 3 {
                0 => self.next_datagram(alloc),
                1 => self.next_opening(alloc, guard, opened),
                _ => self.next_of_streams(alloc, guard),
            };
            match asked {
                Asked::Nothing => {}
                asked => return asked,
            }
        }
        Asked::Nothing
    }

    fn is_full(&self) -> bool {
        self.streams.len() >= MOST_STREAMS
    }

    // Whether another stream can be kept, at worst in the place of one that is closing.
    fn has_room(&self) -> bool {
        !self.is_full() || self.streams.iter().any(|stream| stream.is_closing())
    }

    // Whether something may be there to give without a wait.
    fn is_ready(&self) -> bool {
        self.datagram.is_ready()
            || self.opening.is_ready() && self.has_room()
            || self.streams.iter().any(|stream| stream.is_ready())
    }

    fn next_datagram(&mut self, alloc: Global) -> Asked
        ensures { GivesNoOpening result }
    {
        for _ in 0..MOST_STRANGERS {
            if !self.datagram.is_ready() {
                return Asked::Nothing;
            }
            match self.datagrams.recv_from(&mut self.block) {
                Ok((count, from)) => {
                    if let Some((link, from)) = self.peers.at(&from) {
                        add_one(&mut self.counters.received);
                        return match Octets::of(alloc, &self.block[..count]) {
                            Ok(bytes) => Asked::Got(Input::Datagram { link, from, bytes }),
                            Err(_) => Asked::OutOfMemory,
                        };
                    }
                    add_one(&mut self.counters.strangers);
                    self.stranger = Some(from);
                }
                Err(error) => self.datagram = after_error(error.kind()),
            }
        }
        Asked::Nothing
    }

    fn next_opening(&mut self, alloc: Global, guard: Option<&Guard>, opened: u64) -> Asked
        ensures { MayCome opened result }
    {
        if opened >= MOST_OPENED || !self.opening.is_ready() || !self.has_room() {
            return Asked::Nothing;
        }
        match self.listener.accept() {
            Ok((socket, from)) => {
                let stream = 2 * opened + 1;
                let from = address_of(&from);
                if !self.lets_in(guard, &from) {
                    return Asked::Nothing;
                }
                if self.is_full() {
                    self.make_room();
                }
                match self.keep(alloc, stream, Beginning::Opened(from), socket) {
                    Ok(()) => {
                        add_one(&mut self.counters.opened);
                        Asked::Got(Input::Opened { stream, from })
                    }
                    Err(error) => {
                        self.note_fault(LinkFault::Accept { error });
                        Asked::Nothing
                    }
                }
            }
            Err(error) => {
                self.opening = after_error(error.kind());
                if self.opening == Readiness::Later {
                    self.note_fault(LinkFault::Accept { error });
                }
                Asked::Nothing
            }
        }
    }

    // Whether this address may open one more stream. Where it may not, that is counted.
    fn lets_in(&mut self, guard: Option<&Guard>, from: &Address) -> bool {
        let Some(guard) = guard else {
            return true;
        };
        if !guard.lets_in(from) {
            add_one(&mut self.counters.not_allowed);
            return false;
        }
        let open = self
            .streams
            .iter()
            .filter(|stream| stream.is_open_of(from))
            .count();
        if open >= usize::from(guard.streams) {
            add_one(&mut self.counters.too_many);
            return false;
        }
        true
    }

    fn next_of_streams(&mut self, alloc: Global, guard: Option<&Guard>) -> Asked
        ensures { GivesNoOpening result }
    {
        for _ in 0..self.streams.len() {
            self.place = self.place.wrapping_add(1);
            if self.place >= self.streams.len() {
                self.place = 0;
            }
            match self.next_of_stream(alloc, guard) {
                Asked::Nothing => {}
                asked => return asked,
            }
        }
        Asked::Nothing
    }

    // What the stream gives whose turn it is.
    fn next_of_stream(&mut self, alloc: Global, guard: Option<&Guard>) -> Asked
        ensures { GivesNoOpening result }
    {
        let Some(held) = self.streams.get_mut(self.place) else {
            return Asked::Nothing;
        };
        let stream = held.number();
        if let Some(guard) = guard {
            if held.is_silent(self.now, u64::from(guard.silence)) {
                held.close(self.now);
                add_one(&mut self.counters.silent);
                return Asked::Got(Input::Closed { stream });
            }
        }
        match held.next(alloc, self.now) {
            News::Nothing => Asked::Nothing,
            News::Bytes(bytes) => {
                let many = &mut self.counters.bytes_received;
                *many = many.saturating_add(bytes.len());
                Asked::Got(Input::Bytes { stream, bytes })
            }
            News::End => {
                self.note_end(self.place);
                Asked::Got(Input::Closed { stream })
            }
            News::OutOfMemory => Asked::OutOfMemory,
        }
    }

    // Notes that the stream at this place has ended, where it is a dial that failed.
    fn note_end(&mut self, place: usize) {
        let Some(held) = self.streams.get(place) else {
            return;
        };
        let Some(failed) = held.failed_dial() else {
            return;
        };
        add_one(&mut self.counters.failed_dials);
        if let Some(to) = failed.to {
            self.fault = Some(LinkFault::Dial {
                stream: held.number(),
                to,
                error: failed.error,
            });
        }
    }

    /// Sends a datagram, and returns whether the system took it whole.
    pub(crate) fn send_datagram(&mut self, link: u8, to: u8, bytes: &[u8]) -> bool {
        let Some(at) = self.peers.socket_of(link, to) else {
            add_one(&mut self.counters.lost);
            return false;
        };
        let is_sent = self.datagrams.send_to(bytes, at).ok() == Some(bytes.len());
        add_one(match is_sent {
            true => &mut self.counters.sent,
            false => &mut self.counters.lost,
        });
        is_sent
    }

    /// Begins to connect, and returns whether it could. The stream is kept in any case, so that its end is told.
    pub(crate) fn dial<N: Net>(
        &mut self,
        net: &N,
        alloc: Global,
        number: u64,
        to: &Locator,
    ) -> bool {
        if self.is_full() {
            self.make_room();
        }
        add_one(&mut self.counters.dialled);
        let to = dial_addr(to);
        let beginning = Beginning::Dialling(to);
        let kept = match self.connect(net, to) {
            Ok(socket) => self.keep(alloc, number, beginning, socket),
            Err(error) => Err(error),
        };
        let Err(error) = kept else {
            return true;
        };
        let failed = Stream::failed(alloc, number, beginning, self.now, Some(error));
        let _ = self.streams.push(failed);
        false
    }

    // Begins to connect, from where the node listens if that is an address of the same family.
    fn connect<N: Net>(&self, net: &N, to: Option<SocketAddr>) -> io::Result<TcpStream> {
        let Some(to) = to else {
            return Err(io::Error::from(ErrorKind::InvalidInput));
        };
        match self.source {
            Some(from) if from.is_ipv4() == to.is_ipv4() => dial_from(net, from, to),
            _ => TcpStream::connect(net, to),
        }
    }

    /// Takes bytes for a stream, and returns whether it could. One that isn't there has ended, and what comes for it is dropped.
    pub(crate) fn send_bytes(&mut self, number: u64, bytes: &[u8]) -> bool {
        let is_taken = match self.stream(number) {
            Some(stream) => stream.send(bytes),
            None => true,
        };
        if is_taken {
            let many = &mut self.counters.bytes_sent;
            *many = many.saturating_add(bytes.len() as u64);
        }
        is_taken
    }

    /// Ends a stream. Its end isn't told.
    pub(crate) fn close(&mut self, number: u64) {
        let now = self.now;
        if let Some(stream) = self.stream(number) {
            stream.close(now);
        }
    }

    /// Ends all streams, and waits until they are gone, at most for about a second. Nothing new is taken any more.
    pub(crate) fn settle(&mut self) {
        self.stop_listening();
        for stream in self.streams.iter_mut() {
            stream.close(self.now);
        }
        for _ in 0..SETTLING_WAITS {
            self.tidy();
            if self.streams.is_empty() || self.wait(Duration::from_millis(SETTLING_WAIT)).is_err() {
                return;
            }
        }
    }

    fn stop_listening(&mut self) {
        let registry = self.poll.registry();
        let _ = registry.deregister(&mut self.datagrams);
        let _ = registry.deregister(&mut self.listener);
        self.datagram = Readiness::Idle;
        self.opening = Readiness::Idle;
    }

    fn stream(&mut self, number: u64) -> Option<&mut Stream> {
        self.streams
            .iter_mut()
            .find(|stream| stream.number() == number)
    }

    // Registers a socket, and keeps it as this stream.
    fn keep(
        &mut self,
        alloc: Global,
        number: u64,
        beginning: Beginning,
        socket: TcpStream,
    ) -> io::Result<()> {
        let mut socket = socket;
        let both = Interest::READABLE | Interest::WRITABLE;
        let registry = self.poll.registry();
        registry.register(&mut socket, token_of(number), both)?;
        let _ = socket.set_nodelay(true);
        let _ = keep_alive(&socket);
        let stream = Stream::new(alloc, number, beginning, self.now, socket);
        Ok(self.streams.push(stream)?)
    }

    // Forgets a stream that is closing: one of which all was written, where there is one.
    fn make_room(&mut self) {
        let written = self.streams.iter().position(|stream| stream.is_written());
        let closing = self.streams.iter().position(|stream| stream.is_closing());
        if let Some(place) = written.or(closing) {
            if let Some(stream) = self.streams.get_mut(place) {
                stream.forget();
            }
        }
        self.streams.retain(|stream| !stream.is_gone());
    }
}

fn open_fault(error: io::Error) -> LinkFault {
    LinkFault::Open { error }
}

fn listen_fault(proto: Proto, at: SocketAddr, error: io::Error) -> LinkFault {
    LinkFault::Listen { proto, at, error }
}

// What is known of a socket after a try that failed.
fn after_error(kind: ErrorKind) -> Readiness {
    match kind {
        ErrorKind::WouldBlock => Readiness::Idle,
        ErrorKind::Interrupted => Readiness::Ready,
        _ => Readiness::Later,
    }
}
