//! Links over the sockets of the machine. No contract says what comes or goes.
ghost use Rattle.std.specs.Prelude.{◌≡◌, ◌≤◌, None, Some, false, is_some};
ghost use Rattle.grasp_io.specs.Faults.{Rose};

use crate::wires::Wires;
use crate::{Asked, Counted, Counters, Failed, Guard, LinkFault, LinkPlan, Links, Sent};
use grasp_types::{Input, Output};
use std::alloc::Global;
use std::net::{Net, SocketAddr};
use std::os::fd::RawFd;
use std::time;

/// Links over sockets: one for datagrams and one that listens, both at the plan's address, and one for each stream. They tell
/// no content.
///
/// Datagrams go to and come from the sockets of the plan's neighbours alone. A datagram that the system refuses, as for its
/// size or because its neighbour's address is of another family than the node's, is `Lost`. A stream whose other side can't be
/// reached, or isn't within 10 seconds, is told `Closed`. Dials come from the address where the node listens, unless that stands
/// for any. An ask ends with an input or with its wait: what is no input, as a datagram of a stranger, ends none.
#[derive(Drop)]
pub struct MioLinks<N: Net + time::Clock + Drop> {
    net: N,
    alloc: Global,
    guard: Option<Guard>,
    watched: Option<RawFd>,
    // None until they are opened.
    wires: Option<Wires>,
    asks: u64,
    opened: u64,
    faults: u64,
    // Why they couldn't be opened.
    why: Option<LinkFault>,
}

impl<N: Net + time::Clock + Drop> MioLinks<N> {
    /// Links that aren't open yet: asks give nothing at once, and sends fail. Everybody may open streams to them.
    pub fn new(net: N, alloc: Global) -> Self
        ensures closed { ⟦<MioLinks<N> as Links>⟧.is_open result ≡ false }
        ensures not_asked { ⟦<MioLinks<N> as Links>⟧.asks result ≡ Some 0 }
        ensures opened { ⟦<MioLinks<N> as Links>⟧.opened result ≡ 0 }
        ensures faults { ⟦<MioLinks<N> as Links>⟧.faults result ≡ 0 }
    {
        MioLinks {
            net,
            alloc,
            guard: None,
            watched: None,
            wires: None,
            asks: 0,
            opened: 0,
            faults: 0,
            why: None,
        }
    }

    /// The same, but streams are opened by those alone whom the guard lets in, and silent ones are told `Closed`. A stream that
    /// isn't let in is closed at once and never given.
    pub fn guarded(net: N, alloc: Global, guard: Guard) -> Self
        ensures closed { ⟦<MioLinks<N> as Links>⟧.is_open result ≡ false }
        ensures not_asked { ⟦<MioLinks<N> as Links>⟧.asks result ≡ Some 0 }
        ensures opened { ⟦<MioLinks<N> as Links>⟧.opened result ≡ 0 }
        ensures faults { ⟦<MioLinks<N> as Links>⟧.faults result ≡ 0 }
    {
        let mut links = MioLinks::new(net, alloc);
        links.guard = Some(guard);
        links
    }

    /// Watches a descriptor from the next opening on: an ask ends, giving nothing, once it has something to read. It is to stay
    /// open as long as the links.
    pub fn watch(&mut self, fd: RawFd)
        ensures stays_open { ⟦<MioLinks<N> as Links>⟧.is_open self.new ≡ ⟦<MioLinks<N> as Links>⟧.is_open self.old }
        ensures not_asked { ⟦<MioLinks<N> as Links>⟧.asks self.new ≡ ⟦<MioLinks<N> as Links>⟧.asks self.old }
        ensures none_opened { ⟦<MioLinks<N> as Links>⟧.opened self.new ≡ ⟦<MioLinks<N> as Links>⟧.opened self.old }
        ensures no_fault { ⟦<MioLinks<N> as Links>⟧.faults self.new ≡ ⟦<MioLinks<N> as Links>⟧.faults self.old }
    {
        self.watched = Some(fd);
    }

    /// Why they couldn't be opened: the socket, its address and the system's error.
    pub fn why(&self) -> Option<LinkFault> {
        self.why
    }

    /// How often something failed.
    pub fn faults(&self) -> u64
        ensures { result ≡ ⟦<MioLinks<N> as Links>⟧.faults self.now }
    {
        self.faults
    }

    /// Ends all streams: writes what is still to be written, and waits for the other sides, at most for about a second. What
    /// comes from now on is dropped. To be called once the node neither asks nor sends any more.
    pub fn settle(&mut self)
        ensures stays_open { ⟦<MioLinks<N> as Links>⟧.is_open self.new ≡ ⟦<MioLinks<N> as Links>⟧.is_open self.old }
        ensures not_asked { ⟦<MioLinks<N> as Links>⟧.asks self.new ≡ ⟦<MioLinks<N> as Links>⟧.asks self.old }
        ensures none_opened { ⟦<MioLinks<N> as Links>⟧.opened self.new ≡ ⟦<MioLinks<N> as Links>⟧.opened self.old }
        ensures no_fault { ⟦<MioLinks<N> as Links>⟧.faults self.new ≡ ⟦<MioLinks<N> as Links>⟧.faults self.old }
    {
        if let Some(wires) = &mut self.wires {
            wires.settle();
        }
    }

    fn count_fault(&mut self)
        ensures rose { Rose self.old.faults self.new.faults }
        ensures never_falls { self.old.faults ≤ self.new.faults }
        ensures same { self.new.opened ≡ self.old.opened }
        ensures not_asked { self.new.asks ≡ self.old.asks }
        ensures same_wires { self.new.wires ≡ self.old.wires }
    {
        self.faults = self.faults.saturating_add(1);
    }

    // Hands over an output, and returns whether it could.
    fn hand_over(&mut self, output: &Output) -> bool
        ensures stays_open { is_some self.new.wires ≡ is_some self.old.wires }
        ensures not_asked { self.new.asks ≡ self.old.asks }
        ensures none_opened { self.new.opened ≡ self.old.opened }
        ensures no_fault { self.new.faults ≡ self.old.faults }
    {
        let Some(wires) = &mut self.wires else {
            return false;
        };
        match output {
            Output::Datagram { link, to, bytes } => {
                wires.send_datagram(*link, *to, bytes.bytes())
            }
            Output::Dial { stream, to } => wires.dial(&self.net, self.alloc, *stream, to),
            Output::Send { stream, bytes } => wires.send_bytes(*stream, bytes.bytes()),
            Output::Close { stream } => {
                wires.close(*stream);
                true
            }
        }
    }
}

impl<N: Net + time::Clock + Drop> Counted for MioLinks<N> {
    fn counters(&self) -> Counters {
        let counters = match &self.wires {
            Some(wires) => wires.counters,
            None => Counters::new(),
        };
        Counters {
            faults: self.faults,
            ..counters
        }
    }

    fn last_fault(&self) -> Option<LinkFault> {
        match &self.wires {
            Some(wires) => wires.fault,
            None => self.why,
        }
    }

    fn last_stranger(&self) -> Option<SocketAddr> {
        match &self.wires {
            Some(wires) => wires.stranger,
            None => None,
        }
    }
}

impl<N: Net + time::Clock + Drop> Links for MioLinks<N> {
    ghost is_open = { λ s. is_some s.wires };

    ghost asks = { λ s. Some s.asks };

    ghost waits = { λ _. None };

    ghost given = { λ _. None };

    ghost handed = { λ _. None };

    ghost opened = { λ s. s.opened };

    ghost faults = { λ s. s.faults };

    fn open(&mut self, plan: &LinkPlan) -> Result<(), Failed> {
        match Wires::open(&self.net, self.alloc, plan, self.watched) {
            Ok(wires) => {
                self.wires = Some(wires);
                Ok(())
            }
            Err(fault) => {
                self.why = Some(fault);
                self.count_fault();
                Err(Failed)
            }
        }
    }

    fn ask(&mut self, wait_ms: u32) -> Asked {
        self.asks = self.asks.saturating_add(1);
        let Some(wires) = &mut self.wires else {
            return Asked::Nothing;
        };
        let guard = self.guard.as_ref();
        let asked = wires.ask(&self.net, self.alloc, guard, self.opened, wait_ms);
        let failed = wires.take_failed();
        if failed {
            self.count_fault();
        }
        if let Asked::Got(Input::Opened { .. }) = &asked {
            self.opened += 1;
        }
        asked
    }

    fn send(&mut self, output: &Output) -> Sent {
        if self.hand_over(output) {
            return Sent::Sent;
        }
        self.count_fault();
        match output {
            Output::Datagram { .. } => Sent::Lost,
            Output::Dial { .. } | Output::Send { .. } | Output::Close { .. } => Sent::Failed,
        }
    }
}
