//! A desk over Unix sockets. No contract says who comes or what they write.
ghost use Rattle.std.specs.Prelude.{◌≡◌, ◌≤◌, None, false, is_some, IfOk};

use crate::hall::{Doors, Fault, Hall};
use crate::{CountedDesk, Desk, DeskCounters, DeskPlan, Visiting};
use grasp_io::Failed;
use grasp_types::Plain;
use std::alloc::Global;
use std::fs::Files;
use std::io::ErrorKind;
use std::net::Net;
use std::os::fd::RawFd;
use std::{fmt, io};

// No visitor has a higher number.
const MOST_CAME: u64 = 1 << 62;

/// Why a desk couldn't be opened.
#[derive(Clone, Copy)]
pub struct DeskFault<'a> {
    /// Whether it is the door for guests.
    pub guests: bool,
    pub path: &'a str,
    pub error: io::Error,
}

impl fmt::Display for DeskFault<'_> {
    fn fmt<W: fmt::Write>(&self, f: &mut fmt::Formatter<W>) -> fmt::Result {
        let door = if self.guests { "guests" } else { "control" };
        if self.error.kind() == ErrorKind::AddrInUse {
            write!(f, "{door} socket in use")
        } else {
            write!(f, "{door} {}: {}", self.path, self.error)
        }
    }
}

/// A desk over Unix sockets: one for visitors and, where it is planned, one for guests. It tells no content.
///
/// A line ends with a line feed and has at most 262,144 bytes; a visitor with a longer one is sent away, and so is one for whom more
/// than 1,048,576 bytes wait. It has its own poll: once something may have come, its descriptor has something to read.
#[derive(Drop)]
pub struct MioDesk<N: Files + Net + Drop> {
    net: N,
    alloc: Global,
    hall: Hall,
    // None until it is opened.
    doors: Option<Doors>,
    plan: Option<DeskPlan>,
    why: Option<Fault>,
    asks: u64,
    came: u64,
    faults: u64,
}

impl<N: Files + Net + Drop> MioDesk<N> {
    /// A desk that isn't open yet: nothing comes.
    pub fn new(net: N, alloc: Global) -> io::Result<Self>
        ensures closed { IfOk result (λ desk. ⟦<MioDesk<N> as Desk>⟧.is_open desk ≡ false) }
        ensures not_asked { IfOk result (λ desk. ⟦<MioDesk<N> as Desk>⟧.asks desk ≡ 0) }
        ensures none_came { IfOk result (λ desk. ⟦<MioDesk<N> as Desk>⟧.came desk ≡ 0) }
        ensures faults { IfOk result (λ desk. ⟦<MioDesk<N> as Desk>⟧.faults desk ≡ 0) }
    {
        let hall = Hall::new(&net, alloc)?;
        Ok(MioDesk {
            net,
            alloc,
            hall,
            doors: None,
            plan: None,
            why: None,
            asks: 0,
            came: 0,
            faults: 0,
        })
    }

    /// The descriptor that has something to read once something may have come.
    pub fn fd(&self) -> RawFd {
        self.hall.fd()
    }

    /// Why it couldn't be opened.
    pub fn why(&self) -> Option<DeskFault<'_>> {
        let fault = self.why?;
        let path = match &self.plan {
            Some(plan) => match &plan.guests {
                Some(guests) if fault.guests => guests.text(),
                _ => plan.control.text(),
            },
            None => "",
        };
        Some(DeskFault {
            guests: fault.guests,
            path,
            error: fault.error,
        })
    }

    /// Ends all visits: removes the doors' paths, and writes what is still to be written, at most for about a second. To be called
    /// once nobody is told anything any more.
    pub fn settle(&mut self)
        ensures closed { ⟦<MioDesk<N> as Desk>⟧.is_open self.new ≡ false }
        ensures not_asked { ⟦<MioDesk<N> as Desk>⟧.asks self.new ≡ ⟦<MioDesk<N> as Desk>⟧.asks self.old }
        ensures none_came { ⟦<MioDesk<N> as Desk>⟧.came self.new ≡ ⟦<MioDesk<N> as Desk>⟧.came self.old }
        ensures no_fault { ⟦<MioDesk<N> as Desk>⟧.faults self.new ≡ ⟦<MioDesk<N> as Desk>⟧.faults self.old }
    {
        if let Some(doors) = &self.doors {
            doors.remove(&self.net);
        }
        self.doors = None;
        self.hall.settle();
    }
}

impl<N: Files + Net + Drop> CountedDesk for MioDesk<N> {
    fn counters(&self) -> DeskCounters {
        DeskCounters {
            came: self.came,
            turned: self.hall.turned,
            untold: self.hall.untold,
        }
    }
}

impl<N: Files + Net + Drop> Desk for MioDesk<N> {
    ghost is_open = { λ s. is_some s.doors };

    ghost asks = { λ s. s.asks };

    ghost given = { λ _. None };

    ghost told = { λ _. None };

    ghost came = { λ s. s.came };

    ghost faults = { λ s. s.faults };

    fn open(&mut self, plan: &DeskPlan) -> Result<(), Failed> {
        self.plan = plan.copy().ok();
        match Doors::open(&self.net, &self.hall, plan) {
            Ok(doors) => {
                self.doors = Some(doors);
                Ok(())
            }
            Err(fault) => {
                self.why = Some(fault);
                self.faults = self.faults.saturating_add(1);
                Err(Failed)
            }
        }
    }

    fn visiting(&mut self) -> Visiting {
        self.asks = self.asks.saturating_add(1);
        let Some(doors) = &mut self.doors else {
            return Visiting::Nothing;
        };
        self.hall.look(doors);
        if self.came < MOST_CAME {
            let visitor = self.came + 1;
            if let Some(guest) = self.hall.let_in(doors, self.alloc, visitor) {
                self.came = visitor;
                return Visiting::Came { visitor, guest };
            }
        }
        self.hall.next(self.alloc)
    }

    fn tell(&mut self, visitor: u64, line: &[u8]) {
        self.hall.tell(visitor, line);
    }
}
