//! Where visitors are served: their connections, and the poll that says of which something may be told.
ghost use Rattle.grasp_desk.specs.Desk.{GivesNoComing};

use crate::connection::{Connection, token_of};
use crate::door::Door;
use crate::{DeskPlan, Visiting};
use grasp_cbor::Chars;
use grasp_types::Plain;
use mio::net::UnixStream;
use mio::{Events, Interest, Poll, Token};
use std::alloc::Global;
use std::fs::Files;
use std::io;
use std::io::ErrorKind;
use std::net::Net;
use std::os::fd::{AsRawFd, RawFd};
use std::time::Duration;

const CONTROL: Token = Token(0);

const GUESTS: Token = Token(1);

// The most events of one look.
const MOST_EVENTS: usize = 64;

// The most connections that are turned away in one call.
const MOST_TURNED: usize = 64;

// How often, and how long each time, the end waits for what is unsent. Milliseconds.
const SETTLING_WAITS: u32 = 50;

const SETTLING_WAIT: u64 = 20;

/// A fault of one of the doors.
#[derive(Clone, Copy)]
pub(crate) struct Fault {
    pub(crate) guests: bool,
    pub(crate) error: io::Error,
}

/// The doors of a desk.
#[derive(Drop)]
pub(crate) struct Doors {
    control: Door,
    guests: Option<Door>,
    // The most visitors at once.
    most: usize,
}

impl Doors {
    /// The doors of this plan.
    pub(crate) fn open<R: Files + Net>(
        rt: &R,
        hall: &Hall,
        plan: &DeskPlan,
    ) -> Result<Doors, Fault> {
        let control = match open_door(rt, hall, &plan.control, plan.mode, CONTROL) {
            Ok(door) => door,
            Err(error) => return Err(control_fault(error)),
        };
        let guests = match &plan.guests {
            Some(path) => match open_door(rt, hall, path, plan.mode, GUESTS) {
                Ok(door) => Some(door),
                Err(error) => {
                    control.remove(rt);
                    return Err(Fault {
                        guests: true,
                        error,
                    });
                }
            },
            None => None,
        };
        Ok(Doors {
            control,
            guests,
            most: usize::from(plan.visitors),
        })
    }

    /// Removes their paths.
    pub(crate) fn remove<R: Files>(&self, rt: &R) {
        self.control.remove(rt);
        if let Some(guests) = &self.guests {
            guests.remove(rt);
        }
    }

    // The next connection, and whether it is a guest's.
    fn knock(&mut self) -> Option<(UnixStream, bool)> {
        if let Some(socket) = self.control.accept() {
            return Some((socket, false));
        }
        let socket = self.guests.as_mut()?.accept()?;
        Some((socket, true))
    }

    fn mark_ready(&mut self, token: Token) {
        if token == CONTROL {
            self.control.is_ready = true;
        } else if let Some(guests) = &mut self.guests {
            guests.is_ready = true;
        }
    }
}

fn control_fault(error: io::Error) -> Fault {
    Fault {
        guests: false,
        error,
    }
}

fn open_door<R: Files + Net>(
    rt: &R,
    hall: &Hall,
    path: &Chars,
    mode: u16,
    token: Token,
) -> io::Result<Door> {
    let Ok(path) = path.copy() else {
        return Err(io::Error::from(ErrorKind::OutOfMemory));
    };
    let mut door = Door::open(rt, path, mode)?;
    let registered = hall
        .poll
        .registry()
        .register(&mut door.listener, token, Interest::READABLE);
    if registered.is_err() {
        door.remove(rt);
    }
    registered?;
    Ok(door)
}

/// The visitors that are there.
#[derive(Drop)]
pub(crate) struct Hall {
    poll: Poll,
    events: Events,
    connections: Vec<Connection>,
    // Which connection gave something last.
    place: usize,
    // How many were turned away, and how many lines weren't told.
    pub(crate) turned: u64,
    pub(crate) untold: u64,
}

impl Hall {
    /// Nobody is there yet.
    pub(crate) fn new<N: Net>(net: &N, alloc: Global) -> io::Result<Hall> {
        Ok(Hall {
            poll: Poll::new(net)?,
            events: Events::with_capacity(alloc, MOST_EVENTS)?,
            connections: Vec::new(alloc),
            place: 0,
            turned: 0,
            untold: 0,
        })
    }

    pub(crate) fn fd(&self) -> RawFd {
        self.poll.as_raw_fd()
    }

    /// Looks of whom the system has something to say, without a wait, and forgets those who left.
    pub(crate) fn look(&mut self, doors: &mut Doors) {
        self.connections.retain(|connection| !connection.is_gone());
        if self
            .poll
            .poll(&mut self.events, Some(Duration::ZERO))
            .is_err()
        {
            return;
        }
        for event in &self.events {
            let token = event.token();
            if token == CONTROL || token == GUESTS {
                doors.mark_ready(token);
            } else if let Some(connection) = self
                .connections
                .iter_mut()
                .find(|connection| token_of(connection.number()) == token)
            {
                connection.mark_ready();
            }
        }
    }

    /// Lets the next visitor in under this number, and returns whether it is a guest. Where as many as may be are there, those that
    /// come are turned away.
    pub(crate) fn let_in(&mut self, doors: &mut Doors, alloc: Global, number: u64) -> Option<bool> {
        for _ in 0..MOST_TURNED {
            let (socket, guest) = doors.knock()?;
            if self.connections.len() < doors.most && self.seat(alloc, number, socket).is_ok() {
                return Some(guest);
            }
            self.turned = self.turned.saturating_add(1);
        }
        None
    }

    fn seat(&mut self, alloc: Global, number: u64, socket: UnixStream) -> io::Result<()> {
        let mut socket = socket;
        self.connections.reserve(1)?;
        let both = Interest::READABLE | Interest::WRITABLE;
        let registry = self.poll.registry();
        registry.register(&mut socket, token_of(number), both)?;
        Ok(
            self.connections
                .push(Connection::new(alloc, number, socket))?,
        )
    }

    /// What the visitors give next. They take turns.
    pub(crate) fn next(&mut self, alloc: Global) -> Visiting
        ensures { GivesNoComing result }
    {
        for _ in 0..self.connections.len() {
            self.place = self.place.wrapping_add(1);
            if self.place >= self.connections.len() {
                self.place = 0;
            }
            match self.next_of(self.place, alloc) {
                Visiting::Nothing => {}
                visiting => return visiting,
            }
        }
        Visiting::Nothing
    }

    fn next_of(&mut self, place: usize, alloc: Global) -> Visiting
        ensures { GivesNoComing result }
    {
        match self.connections.get_mut(place) {
            Some(connection) => connection.next(alloc, self.poll.registry()),
            None => Visiting::Nothing,
        }
    }

    /// Tells a visitor a line, where it is there and reads.
    pub(crate) fn tell(&mut self, visitor: u64, line: &[u8]) {
        let told = match self
            .connections
            .iter_mut()
            .find(|connection| connection.number() == visitor)
        {
            Some(connection) => connection.tell(line),
            None => false,
        };
        if !told {
            self.untold = self.untold.saturating_add(1);
        }
    }

    /// Writes what is still to be written, at most for about a second, and ends all visits.
    pub(crate) fn settle(&mut self) {
        for _ in 0..SETTLING_WAITS {
            for connection in self.connections.iter_mut() {
                connection.flush();
            }
            if !self
                .connections
                .iter()
                .any(|connection| connection.has_unsent())
            {
                break;
            }
            let wait = Duration::from_millis(SETTLING_WAIT);
            if self.poll.poll(&mut self.events, Some(wait)).is_err() {
                break;
            }
        }
        self.connections.clear();
    }
}
