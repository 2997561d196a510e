//! A desk in memory, with lines that aren't told.
ghost use Rattle.std.specs.Prelude.{◌≡◌, ◌≤◌, ◌⊎◌, [], ◌∷◌, ◌++◌, Some, true, false, is_some, IsTrue, IsErr, IfSome, OnOk, OnErr};
ghost use Rattle.grasp_io.specs.Faults.{Rose};
ghost use Rattle.grasp_io.specs.Memory.{one_more, next_fails};
ghost use Rattle.grasp_io.specs.Told.{Stays, Grows};
ghost use Rattle.grasp_desk.specs.Desk.{IsNext, Gives, Tells};
ghost use Rattle.grasp_desk.specs.MemoryDesk.{DeskState, given_of, can_come, comes, IsAsked};

use crate::{CountedDesk, Desk, DeskCounters, DeskPlan, Told, Visiting};
use grasp_cbor::Octets;
use grasp_io::Failed;
use grasp_types::Plain;
use std::alloc::Global;
use std::marker::Model;

/// What a visitor does, and the number of the asking at which it comes: from that one on it is the next to be given.
#[derive(Debug, Drop)]
pub struct Visit {
    pub asking: u64,
    pub visiting: Visiting,
}

/// A desk whose visits stand in memory. Askings are numbered from 1, and so are the lines that it is handed.
///
/// The visits are given in their order, one at an asking. One that a desk can't give (nothing, or a visitor that comes with
/// another number than the next) is never given, nor is any after it.
#[derive(Drop)]
pub struct MemDesk<'a> {
    visits: &'a [Visit],
    next: usize,
    failing: &'a [u64],
    refuses: bool,
    plans: Vec<DeskPlan>,
    told: Vec<Told>,
    asks: u64,
    tells: u64,
    came: u64,
    faults: u64,
}

impl<'a> Model for MemDesk<'a> {
    ghost use Rattle.std.specs.Coded.{codes};
    ghost use Rattle.grasp_desk.specs.MemoryDesk.{DeskState};
    ghost use Rattle.grasp_desk.specs.contracts.desk.DeskPlan as plan;
    ghost use Rattle.grasp_desk.specs.contracts.desk.Told as line;
    ghost use Rattle.grasp_desk.specs.contracts.memory_desk.Visit as visit;

    ghost Value = { DeskState };

    ghost coded = { Prim.hlevel (codes, plan.the_row.coded, line.the_row.coded, visit.the_row.coded) };

    ghost view = { λ s. record {
      visits = s.visits.now;
      next = s.next;
      failing = s.failing.now;
      refuses = s.refuses;
      plans = s.plans.items;
      told = s.told.items;
      asks = s.asks;
      tells = s.tells;
      came = s.came;
      faults = s.faults;
    } };
}

impl<'a> MemDesk<'a> {
    /// A desk to which this comes, and which tells every line.
    pub fn new(alloc: Global, visits: &'a [Visit]) -> Self
        ensures { result ≡ record {
          visits = visits.now;
          next = 0;
          failing = [];
          refuses = false;
          plans = [];
          told = [];
          asks = 0;
          tells = 0;
          came = 0;
          faults = 0;
        } }
    {
        MemDesk {
            visits,
            next: 0,
            failing: &[],
            refuses: false,
            plans: Vec::new(alloc),
            told: Vec::new(alloc),
            asks: 0,
            tells: 0,
            came: 0,
            faults: 0,
        }
    }

    /// The same desk, but the lines with these numbers aren't told.
    pub fn failing_at(self, lines: &'a [u64]) -> Self
        ensures { result ≡ record self.entry { failing = lines.now } }
    {
        MemDesk {
            failing: lines,
            ..self
        }
    }

    /// The same desk, but it can't be opened.
    pub fn refusing(self) -> Self
        ensures { result ≡ record self.entry { refuses = true } }
    {
        MemDesk {
            refuses: true,
            ..self
        }
    }

    /// The plans that it was opened with so far.
    pub fn plans(&self) -> &[DeskPlan]
        ensures { result.now ≡ self.now.plans }
    {
        &self.plans
    }

    /// The lines told so far.
    pub fn told(&self) -> &[Told]
        ensures { result.now ≡ self.now.told }
    {
        &self.told
    }

    /// How often it was asked.
    pub fn asks(&self) -> u64
        ensures { result ≡ self.now.asks }
    {
        self.asks
    }
}

// The count of visitors after this, where a desk can give it.
fn came_after(came: u64, visiting: &Visiting) -> Option<u64>
    ensures can { is_some result ≡ can_come came visiting.now }
    ensures next { IfSome result (λ n. IsNext came n visiting.now) }
{
    match visiting {
        Visiting::Came { visitor, .. } => {
            if came < u64::MAX && *visitor == came + 1 {
                Some(came + 1)
            } else {
                None
            }
        }
        Visiting::Line { .. } => Some(came),
        Visiting::Left { .. } => Some(came),
        Visiting::Nothing => None,
        Visiting::OutOfMemory => None,
    }
}

/// Lines that weren't told are counted with its other faults.
impl CountedDesk for MemDesk<'_> {
    fn counters(&self) -> DeskCounters {
        DeskCounters {
            came: self.came,
            turned: 0,
            untold: self.faults,
        }
    }
}

impl Desk for MemDesk<'_> {
    ghost plans = { λ s. Some s.plans };

    ghost asks = { λ s. s.asks };

    ghost given = { λ s. Some (given_of s) };

    ghost told = { λ s. Some s.told };

    ghost came = { λ s. s.came };

    ghost faults = { λ s. s.faults };

    // Where there is no memory for the plan, opening fails.
    fn open(&mut self, plan: &DeskPlan) -> Result<(), Failed>
        ensures opens { OnOk result (IsTrue true) }
        ensures planned { OnOk result (Grows (Some self.old.plans) (Some self.new.plans) plan.now) }
        ensures planned_nothing { OnErr result (Stays (Some self.old.plans) (Some self.new.plans)) }
        ensures not_asked { self.new.asks ≡ self.old.asks }
        ensures gave { Stays (Some (given_of self.old)) (Some (given_of self.new)) }
        ensures told { Stays (Some self.old.told) (Some self.new.told) }
        ensures none_came { self.new.came ≡ self.old.came }
        ensures fault { OnErr result (Rose self.old.faults self.new.faults) }
        ensures never_falls { self.old.faults ≤ self.new.faults }
        ensures fails { IsTrue self.old.refuses → IsErr result }
        ensures counted { OnOk result (self.new.faults ≡ self.old.faults) }
        ensures only { self.new ≡ record self.old {
          plans = self.new.plans;
          faults = self.new.faults;
        } }
    {
        if !self.refuses && self.keep_plan(plan) {
            return Ok(());
        }
        self.faults = self.faults.saturating_add(1);
        Err(Failed)
    }

    fn visiting(&mut self) -> Visiting
        ensures planned { Stays (Some self.old.plans) (Some self.new.plans) }
        ensures asked { self.new.asks ≡ one_more self.old.asks }
        ensures gave { Gives (Some (given_of self.old)) (Some (given_of self.new)) result }
        ensures told { Stays (Some self.old.told) (Some self.new.told) }
        ensures next { IsNext self.old.came self.new.came result }
        ensures never_falls { self.old.faults ≤ self.new.faults }
        ensures answer { IsAsked (comes self.old) result }
        ensures only { self.new ≡ record self.old {
          next = self.new.next;
          asks = one_more self.old.asks;
          came = self.new.came;
        } }
    {
        self.asks = self.asks.saturating_add(1);
        let Some(visit) = self.visits.get(self.next) else {
            return Visiting::Nothing;
        };
        if self.asks < visit.asking {
            return Visiting::Nothing;
        }
        let Some(came) = came_after(self.came, &visit.visiting) else {
            return Visiting::Nothing;
        };
        let Ok(visiting) = visit.visiting.copy() else {
            return Visiting::OutOfMemory;
        };
        self.next += 1;
        self.came = came;
        visiting
    }

    // Where there is no memory for the line it isn't told, as at a number that is to fail.
    fn tell(&mut self, visitor: u64, line: &[u8])
        ensures planned { Stays (Some self.old.plans) (Some self.new.plans) }
        ensures not_asked { self.new.asks ≡ self.old.asks }
        ensures gave { Stays (Some (given_of self.old)) (Some (given_of self.new)) }
        ensures told { Tells (Some self.old.told) (Some self.new.told) (record {
          visitor = visitor;
          line = line.now;
        }) self.old.faults self.new.faults }
        ensures none_came { self.new.came ≡ self.old.came }
        ensures never_falls { self.old.faults ≤ self.new.faults }
        ensures fails { IsTrue (next_fails self.old.failing self.old.tells) → self.new.told ≡ self.old.told }
        ensures only { self.new ≡ record self.old {
          told = self.new.told;
          tells = one_more self.old.tells;
          faults = self.new.faults;
        } }
    {
        let fails = self.next_fails();
        self.tells = self.tells.saturating_add(1);
        if !fails && self.keep(visitor, line) {
            return;
        }
        self.faults = self.faults.saturating_add(1);
    }
}

impl MemDesk<'_> {
    // Whether the next line is to fail.
    fn next_fails(&self) -> bool
        ensures { result ≡ next_fails self.now.failing self.now.tells }
    {
        self.failing.contains(&self.tells.saturating_add(1))
    }

    // Keeps the plan, and returns whether there was memory for it.
    fn keep_plan(&mut self, plan: &DeskPlan) -> bool
        ensures only { self.new ≡ record self.old { plans = self.new.plans } }
        ensures kept { IsTrue result → self.new.plans ≡ self.old.plans ++ plan.now ∷ [] }
        ensures not_kept { result ≡ false → self.new.plans ≡ self.old.plans }
    {
        match plan.copy() {
            Ok(copy) => self.plans.push(copy).is_ok(),
            Err(_) => false,
        }
    }

    // Keeps the line, and returns whether there was memory for it.
    fn keep(&mut self, visitor: u64, line: &[u8]) -> bool
        ensures only { self.new ≡ record self.old { told = self.new.told } }
        ensures kept { IsTrue result → self.new.told ≡ self.old.told ++ (record {
          visitor = visitor;
          line = line.now;
        }) ∷ [] }
        ensures not_kept { result ≡ false → self.new.told ≡ self.old.told }
    {
        match Octets::of(*self.told.allocator(), line) {
            Ok(line) => self.told.push(Told { visitor, line }).is_ok(),
            Err(_) => false,
        }
    }
}
