//! Links in memory, with asks that give nothing and sends that fail.
ghost use Rattle.std.specs.Prelude.{◌≡◌, ◌≢◌, ◌≤◌, [], ◌∷◌, ◌++◌, Some, true, false, is_some, IsTrue, IsErr, IfSome, OnOk, OnErr};
ghost use Rattle.grasp_io.specs.Counted.{StaysAt, CountsOne};
ghost use Rattle.grasp_io.specs.Faults.{Rose};
ghost use Rattle.grasp_io.specs.Links.{IsNext, Gives, Waits, IsAnswer, Hands};
ghost use Rattle.grasp_io.specs.Memory.{one_more, next_fails};
ghost use Rattle.grasp_io.specs.MemoryLinks.{LinksState, given_of, can_come, comes, IsAsked};
ghost use Rattle.grasp_io.specs.Told.{Stays, Grows};
ghost use Rattle.grasp_io.specs.declared.links.Asked.TheVariants.{Got};

use crate::{Asked, Counted, Counters, Failed, LinkFault, LinkPlan, Links, Sent};
use grasp_types::{Input, Output, Plain};
use std::alloc::Global;
use std::marker::Model;
use std::net::SocketAddr;

const MOST_OPENED: u64 = 1 << 62;

/// An input, and the number of the ask at which it comes: from that ask on it is the next to be given.
#[derive(Debug, Drop)]
pub struct Arrival {
    pub ask: u64,
    pub input: Input,
}

/// Links whose inputs stand in memory. Asks are numbered from 1, and so are sends.
///
/// The arrivals are given in their order, one at an ask. One that links can't give (a call, a drain or an opening with
/// another number than the next odd one) is never given, nor is any after it.
#[derive(Drop)]
pub struct MemLinks<'a> {
    arrivals: &'a [Arrival],
    next: usize,
    quiet: &'a [u64],
    failing: &'a [u64],
    refuses: bool,
    plans: Vec<LinkPlan>,
    waits: Vec<u32>,
    handed: Vec<Output>,
    asks: u64,
    sends: u64,
    opened: u64,
    faults: u64,
}

impl<'a> Model for MemLinks<'a> {
    ghost use Rattle.std.specs.Coded.{codes};
    ghost use Rattle.grasp_io.specs.MemoryLinks.{LinksState};
    ghost use Rattle.grasp_io.specs.contracts.links.LinkPlan as plan;
    ghost use Rattle.grasp_io.specs.contracts.memory_links.Arrival as arrival;
    ghost use Rattle.grasp_types.specs.contracts.traffic.Output as output;

    ghost Value = { LinksState };

    ghost coded = { Prim.hlevel (codes, plan.the_row.coded, arrival.the_row.coded, output.the_row.coded) };

    ghost view = { λ s. record {
      arrivals = s.arrivals.now;
      next = s.next;
      quiet = s.quiet.now;
      failing = s.failing.now;
      refuses = s.refuses;
      plans = s.plans.items;
      waits = s.waits.items;
      handed = s.handed.items;
      asks = s.asks;
      sends = s.sends;
      opened = s.opened;
      faults = s.faults;
    } };
}

impl<'a> MemLinks<'a> {
    /// Links to which this comes, and which take all outputs.
    pub fn new(alloc: Global, arrivals: &'a [Arrival]) -> Self
        ensures { result ≡ record {
          arrivals = arrivals.now;
          next = 0;
          quiet = [];
          failing = [];
          refuses = false;
          plans = [];
          waits = [];
          handed = [];
          asks = 0;
          sends = 0;
          opened = 0;
          faults = 0;
        } }
    {
        MemLinks {
            arrivals,
            next: 0,
            quiet: &[],
            failing: &[],
            refuses: false,
            plans: Vec::new(alloc),
            waits: Vec::new(alloc),
            handed: Vec::new(alloc),
            asks: 0,
            sends: 0,
            opened: 0,
            faults: 0,
        }
    }

    /// The same links, but the asks with these numbers give nothing.
    pub fn quiet_at(self, asks: &'a [u64]) -> Self
        ensures { result ≡ record self.entry { quiet = asks.now } }
    {
        MemLinks {
            quiet: asks,
            ..self
        }
    }

    /// The same links, but the sends with these numbers fail.
    pub fn failing_at(self, sends: &'a [u64]) -> Self
        ensures { result ≡ record self.entry { failing = sends.now } }
    {
        MemLinks {
            failing: sends,
            ..self
        }
    }

    /// The same links, but they can't be opened.
    pub fn refusing(self) -> Self
        ensures { result ≡ record self.entry { refuses = true } }
    {
        MemLinks {
            refuses: true,
            ..self
        }
    }

    /// The plans that they were opened with so far.
    pub fn plans(&self) -> &[LinkPlan]
        ensures { result.now ≡ self.now.plans }
    {
        &self.plans
    }

    /// The waits of the asks so far, in milliseconds.
    pub fn waits(&self) -> &[u32]
        ensures { result.now ≡ self.now.waits }
    {
        &self.waits
    }

    /// The outputs handed over so far.
    pub fn handed(&self) -> &[Output]
        ensures { result.now ≡ self.now.handed }
    {
        &self.handed
    }
}

// The openings after this input, where links can give it.
fn openings_after(opened: u64, input: &Input) -> Option<u64>
    ensures can { is_some result ≡ can_come opened input.now }
    ensures next { IfSome result (λ n. IsNext opened n (Got input.now)) }
{
    match input {
        Input::Api { .. } => None,
        Input::Datagram { .. } => Some(opened),
        Input::Opened { stream, .. } => {
            if opened < MOST_OPENED && *stream == 2 * opened + 1 {
                Some(opened + 1)
            } else {
                None
            }
        }
        Input::Bytes { .. } => Some(opened),
        Input::Closed { .. } => Some(opened),
        Input::Drain { .. } => None,
    }
}

/// Openings and faults alone are counted.
impl Counted for MemLinks<'_> {
    fn counters(&self) -> Counters {
        Counters {
            opened: self.opened,
            faults: self.faults,
            ..Counters::new()
        }
    }

    fn last_fault(&self) -> Option<LinkFault> {
        None
    }

    fn last_stranger(&self) -> Option<SocketAddr> {
        None
    }
}

impl Links for MemLinks<'_> {
    ghost plans = { λ s. Some s.plans };

    ghost asks = { λ s. Some s.asks };

    ghost waits = { λ s. Some s.waits };

    ghost given = { λ s. Some (given_of s) };

    ghost handed = { λ s. Some s.handed };

    ghost opened = { λ s. s.opened };

    ghost faults = { λ s. s.faults };

    // Where memory is wanted for the plan, opening fails.
    fn open(&mut self, plan: &LinkPlan) -> Result<(), Failed>
        ensures opens { OnOk result (IsTrue true) }
        ensures told { OnOk result (Grows (Some self.old.plans) (Some self.new.plans) plan.now) }
        ensures told_nothing { OnErr result (Stays (Some self.old.plans) (Some self.new.plans)) }
        ensures not_asked { StaysAt (Some self.old.asks) (Some self.new.asks) }
        ensures waited { Stays (Some self.old.waits) (Some self.new.waits) }
        ensures gave { Stays (Some (given_of self.old)) (Some (given_of self.new)) }
        ensures took { Stays (Some self.old.handed) (Some self.new.handed) }
        ensures none_opened { self.new.opened ≡ self.old.opened }
        ensures fault { OnErr result (Rose self.old.faults self.new.faults) }
        ensures never_falls { self.old.faults ≤ self.new.faults }
        ensures fails { IsTrue self.old.refuses → IsErr result }
        ensures counted { OnOk result (self.new.faults ≡ self.old.faults) }
        ensures only { self.new ≡ record self.old {
          plans = self.new.plans;
          faults = self.new.faults;
        } }
    {
        if !self.refuses && self.keep_plan(plan) {
            return Ok(());
        }
        self.faults = self.faults.saturating_add(1);
        Err(Failed)
    }

    // Where memory is wanted for the wait, nothing is told; where it is wanted for the input, the wait is told.
    fn ask(&mut self, wait_ms: u32) -> Asked
        ensures told { Stays (Some self.old.plans) (Some self.new.plans) }
        ensures asked { CountsOne (Some self.old.asks) (Some self.new.asks) }
        ensures waited { Waits (Some self.old.waits) (Some self.new.waits) result wait_ms }
        ensures gave { Gives (Some (given_of self.old)) (Some (given_of self.new)) result }
        ensures took { Stays (Some self.old.handed) (Some self.new.handed) }
        ensures next { IsNext self.old.opened self.new.opened result }
        ensures never_falls { self.old.faults ≤ self.new.faults }
        ensures answer { IsAsked (comes self.old) result }
        ensures only { self.new ≡ record self.old {
          next = self.new.next;
          waits = self.new.waits;
          asks = one_more self.old.asks;
          opened = self.new.opened;
        } }
    {
        self.asks = self.asks.saturating_add(1);
        if self.waits.push(wait_ms).is_err() {
            return Asked::OutOfMemory;
        }
        if self.quiet.contains(&self.asks) {
            return Asked::Nothing;
        }
        let Some(arrival) = self.arrivals.get(self.next) else {
            return Asked::Nothing;
        };
        if self.asks < arrival.ask {
            return Asked::Nothing;
        }
        let Some(opened) = openings_after(self.opened, &arrival.input) else {
            return Asked::Nothing;
        };
        let Ok(input) = arrival.input.copy() else {
            return Asked::OutOfMemory;
        };
        self.next += 1;
        self.opened = opened;
        Asked::Got(input)
    }

    // Where memory is wanted the send fails, as at a number that is to fail.
    fn send(&mut self, output: &Output) -> Sent
        ensures told { Stays (Some self.old.plans) (Some self.new.plans) }
        ensures not_asked { StaysAt (Some self.old.asks) (Some self.new.asks) }
        ensures waited { Stays (Some self.old.waits) (Some self.new.waits) }
        ensures gave { Stays (Some (given_of self.old)) (Some (given_of self.new)) }
        ensures took { Hands (Some self.old.handed) (Some self.new.handed) result output.now }
        ensures none_opened { self.new.opened ≡ self.old.opened }
        ensures answer { IsAnswer output.now result self.old.faults self.new.faults }
        ensures never_falls { self.old.faults ≤ self.new.faults }
        ensures fails { IsTrue (next_fails self.old.failing self.old.sends) → result ≢ Sent.Sent }
        ensures only { self.new ≡ record self.old {
          handed = self.new.handed;
          sends = one_more self.old.sends;
          faults = self.new.faults;
        } }
    {
        self.sends = self.sends.saturating_add(1);
        if !self.failing.contains(&self.sends) && self.keep(output) {
            return Sent::Sent;
        }
        self.faults = self.faults.saturating_add(1);
        match output {
            Output::Datagram { .. } => Sent::Lost,
            Output::Dial { .. } | Output::Send { .. } | Output::Close { .. } => Sent::Failed,
        }
    }
}

impl MemLinks<'_> {
    // Keeps the plan, and returns whether there was memory for it.
    fn keep_plan(&mut self, plan: &LinkPlan) -> bool
        ensures only { self.new ≡ record self.old { plans = self.new.plans } }
        ensures kept { IsTrue result → self.new.plans ≡ self.old.plans ++ plan.now ∷ [] }
        ensures not_kept { result ≡ false → self.new.plans ≡ self.old.plans }
    {
        match plan.copy() {
            Ok(copy) => self.plans.push(copy).is_ok(),
            Err(_) => false,
        }
    }

    // Keeps the output, and returns whether there was memory for it.
    fn keep(&mut self, output: &Output) -> bool
        ensures only { self.new ≡ record self.old { handed = self.new.handed } }
        ensures kept { IsTrue result → self.new.handed ≡ self.old.handed ++ output.now ∷ [] }
        ensures not_kept { result ≡ false → self.new.handed ≡ self.old.handed }
    {
        match output.copy() {
            Ok(copy) => self.handed.push(copy).is_ok(),
            Err(_) => false,
        }
    }
}
