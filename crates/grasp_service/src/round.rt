//! A round of a node that serves.

ghost use Rattle.std.specs.Prelude.{◌≡◌, ◌++◌, filter, MatchResult, OnOk};
ghost use Rattle.grasp_crew.specs.Seats.{stays};
ghost use Rattle.grasp_node_main.specs.Tells.{links_told, told};
ghost use Rattle.grasp_service.specs.Cuts.{CutsOff};
ghost use Rattle.grasp_service.specs.Following.{Wakes, ActsIn, ActsOn, HearsVisitors, TakesVisitors, Rests, Follows, woken_agents};
ghost use Rattle.grasp_service.specs.Rounds.{WentOn, CutFor, Ends, outside, ticks, stirs, woken_crew};
ghost use Rattle.grasp_service.specs.States.{state_of, heard_event, event_told, events_told};
ghost use Rattle.grasp_service_visits.specs.Calling.{GoesSome};
ghost use Rattle.grasp_service_visits.specs.Desks.{desk_told};
ghost use Rattle.grasp_service_visits.specs.Tending.{TendsAll};

use crate::acting::{act_all, wake_all};
use crate::cut::Cut;
use crate::exchange::{Exchange, make_turn};
use crate::service::Service;
use grasp_cbor::{Octets, OutOfMemory};
use grasp_control::NodeEvent;
use grasp_core::NodeCore;
use grasp_crew::{Seat, Servant};
use grasp_desk::{Desk, Told};
use grasp_disk::Disk;
use grasp_io::{Clock, Counted, Links, Sink, write_all};
use grasp_node_main::hand_over;
use grasp_service_visits::{add_event, take_visits, tell_all, tend_all};
use grasp_shared::step_core;
use grasp_shelf::Shelf;
use grasp_types::{Input, List, Plain};
use std::alloc::Global;

/// After the last round at most so many outputs are drained: more than a node has.
const LAST_DRAIN: u32 = 320;

/// What a round's agents and visitors came to.
#[derive(Drop)]
struct Said {
    lines: List<Told>,
    some: bool,
}

impl Service {
    /// One round. It asks the links once and reads the clock, gives the node what came, and drains it into the links. Then each
    /// agent is told what is due and makes a call where one is due, what comes of visitors is taken, and all lines are told.
    /// The answer is whether a visitor stopped the node.
    ///
    /// The store is asked around the calls of the agent of prefixes. Where it has a fault, or the node wants memory, the round is
    /// cut short: its exchange with the links is whole, and the history has the calls behind it. The lines of events go to the
    /// log, of which nothing is claimed.
    #[tactic(auto, using(crate::proofs::Making::rounding))]
    pub fn round<K: Sink, L: Links + Counted, D: Desk, C: Clock, B: Disk>(
        &mut self,
        log: &mut K,
        links: &mut L,
        desk: &mut D,
        clock: &mut C,
        shelf: &mut Shelf<B>,
    ) -> Result<bool, Cut>
        ensures { MatchResult result
            (λ stops. WentOn B.stands B.faults self.old shelf.old (outside (told (C.readings clock.old)
            (links_told L.Links links.old)) (desk_told D.Desk desk.old)) stops self.new shelf.new (outside (told (C.readings clock.new)
            (links_told L.Links links.new)) (desk_told D.Desk desk.new)))
            (λ cut. CutFor B.stands B.faults self.old shelf.old (told (C.readings clock.old)
            (links_told L.Links links.old)) cut self.new shelf.new (told (C.readings clock.new)
            (links_told L.Links links.new))) }
    {
        let wait = self.wait.min(self.tick);
        let turn = make_turn(&mut self.core, wait, links, clock);
        if turn.starved {
            return Err(Cut::OutOfMemory);
        }
        self.house.counters = links.counters();
        self.follow(log, desk, shelf, &turn)
    }

    /// What follows a turn: agents, visitors, and the lines that are told.
    #[tactic(auto, using(crate::proofs::Following::following))]
    fn follow<K: Sink, D: Desk, B: Disk>(
        &mut self,
        log: &mut K,
        desk: &mut D,
        shelf: &mut Shelf<B>,
        turn: &Exchange,
    ) -> Result<bool, Cut>
        ensures { MatchResult result
            (λ stops. Follows B.stands B.faults self.old shelf.old (desk_told D.Desk desk.old) turn.now.reading turn.now.came stops self.new shelf.new
            (desk_told D.Desk desk.new))
            (λ cut. CutsOff B.stands B.faults self.old.core turn.now.reading (woken_agents self.old turn.now.reading turn.now.came) shelf.old cut
            self.new.core shelf.new) }
    {
        let mut events = List::new(self.alloc);
        self.act(shelf, &mut events, turn)?;
        let said = self.take_visitors(desk, &mut events, turn.reading)?;
        tell_all(desk, said.lines.slice());
        write_events(log, events.slice());
        self.rest(turn, said.some);
        Ok(self.house.stopping)
    }

    /// Wakes the agents where something may have come for them, tells each what is due, and has it make its call where one is due.
    #[tactic(auto, using(crate::proofs::Following::acting))]
    fn act<B: Disk>(
        &mut self,
        shelf: &mut Shelf<B>,
        events: &mut List<Octets>,
        turn: &Exchange,
    ) -> Result<(), Cut>
        ensures { MatchResult result (λ _. ActsOn B.stands B.faults self.old shelf.old turn.now.reading turn.now.came self.new shelf.new)
            (λ cut. CutsOff B.stands B.faults self.old.core turn.now.reading (woken_agents self.old turn.now.reading turn.now.came) shelf.old cut
            self.new.core shelf.new) }
    {
        self.wake(turn);
        self.act_woken(shelf, events, turn.reading)
    }

    /// Wakes the agents where something may have come for them.
    #[tactic(auto, using(crate::proofs::Following::wakes_on))]
    fn wake(&mut self, turn: &Exchange)
        ensures { Wakes self.old turn.now.reading turn.now.came self.new }
    {
        let stirs = self.stirs(turn);
        wake_if(&mut self.house.crew, stirs);
        self.ticked = self.ticks(turn.reading);
    }

    /// Tells each agent what is due, and has it make its call where one is due.
    #[tactic(auto, using(crate::proofs::Following::acts_in))]
    fn act_woken<B: Disk>(
        &mut self,
        shelf: &mut Shelf<B>,
        events: &mut List<Octets>,
        now: u64,
    ) -> Result<(), Cut>
        ensures { MatchResult result (λ _. ActsIn B.stands B.faults self.old shelf.old now self.new shelf.new)
            (λ cut. CutsOff B.stands B.faults self.old.core now self.old.house.crew.items shelf.old cut self.new.core shelf.new) }
    {
        act_all(
            self.alloc,
            &mut self.core,
            &mut self.house.crew,
            shelf,
            events,
            now,
        )
    }

    /// How many ticks there were at a reading.
    fn ticks(&self, now: u64) -> u64
        ensures { result ≡ ticks (state_of self.now) now }
    {
        now / u64::from(self.tick.max(1))
    }

    /// Whether something may have come for the agents: an input, something of visitors in the round before, or a tick.
    fn stirs(&self, turn: &Exchange) -> bool
        ensures { result ≡ stirs (state_of self.now) turn.now.reading turn.now.came }
    {
        turn.came || self.stirring || self.ticks(turn.reading) != self.ticked
    }

    /// Takes what comes of visitors, sees to their seats, and gathers what they are to be told, the events last.
    #[tactic(auto, using(crate::proofs::Following::taking))]
    fn take_visitors<D: Desk>(
        &mut self,
        desk: &mut D,
        events: &mut List<Octets>,
        now: u64,
    ) -> Result<Said, OutOfMemory>
        ensures { MatchResult result
            (λ said. TakesVisitors self.old (desk_told D.Desk desk.old) now said self.new (desk_told D.Desk desk.new))
            (λ _. GoesSome self.old.core self.new.core) }
    {
        let mut lines = List::new(self.alloc);
        let some = self.hear_visitors(&mut lines, desk, events, now)?;
        if self.house.stopping {
            add_event(self.alloc, events, now, NodeEvent::Stopping)?;
        }
        add_events(&self.seats, &mut lines, events.slice())?;
        Ok(Said { lines, some })
    }

    /// Takes what comes of visitors, sees to their seats, and keeps those that stay. Whether something came.
    #[tactic(auto, using(crate::proofs::Following::hearing))]
    fn hear_visitors<D: Desk>(
        &mut self,
        lines: &mut List<Told>,
        desk: &mut D,
        events: &mut List<Octets>,
        now: u64,
    ) -> Result<bool, OutOfMemory>
        ensures { MatchResult result
            (λ some. HearsVisitors self.old lines.old (desk_told D.Desk desk.old) now some self.new lines.new (desk_told D.Desk desk.new))
            (λ _. GoesSome self.old.core self.new.core) }
    {
        let some = take_visits(
            self.alloc,
            &mut self.core,
            &mut self.house,
            &mut self.seats,
            lines,
            events,
            desk,
            now,
        )?;
        tend_seats(self.alloc, &mut self.core, &mut self.seats, lines, now)?;
        keep_staying(&mut self.seats);
        Ok(some)
    }

    /// How long the next round may wait.
    fn rest(&mut self, turn: &Exchange, some: bool)
        ensures { Rests self.old turn.now.reading some self.new }
    {
        self.stirring = some;
        self.reading = turn.reading;
        self.wait = if turn.came || turn.full || some || is_busy(&self.house.crew) {
            0
        } else {
            until_due(&self.house.crew, &self.seats, turn.reading, self.tick)
        };
    }

    /// The last drain, with the last round's reading: its outputs are handed to the links.
    #[tactic(auto, using(crate::proofs::Making::ends_made))]
    pub fn end<L: Links>(&mut self, links: &mut L)
        ensures { Ends self.old (links_told L.Links links.old) self.new (links_told L.Links links.new) }
    {
        let drained = step_core(
            &mut self.core,
            self.reading,
            Input::Drain { max: LAST_DRAIN },
        );
        hand_over(links, &drained);
        drop(drained);
    }
}

/// Wakes the agents, where something may have come for them.
fn wake_if(crew: &mut [Servant], stirs: bool)
    ensures { crew.new ≡ woken_crew stirs crew.old }
{
    if stirs {
        wake_all(crew);
    }
}

/// Sees to each seat.
fn tend_seats(
    alloc: Global,
    core: &mut NodeCore,
    seats: &mut Vec<Seat>,
    lines: &mut List<Told>,
    now: u64,
) -> Result<(), OutOfMemory>
    ensures { MatchResult result
        (λ _. TendsAll core.old seats.old.items lines.old now core.new seats.new.items lines.new)
        (λ _. GoesSome core.old core.new) }
{
    tend_all(alloc, core, seats, lines, now)
}

/// Drops the seats whose visitor left and whose agent is gone.
fn keep_staying(seats: &mut Vec<Seat>)
    ensures { seats.new.items ≡ filter stays seats.old.items }
{
    seats.retain(|s| s.stays());
}

/// Adds the lines of events to what is to be told, for each seat that hears of them.
fn add_events(seats: &[Seat], lines: &mut List<Told>, events: &[Octets]) -> Result<(), OutOfMemory>
    ensures { OnOk result (lines.new ≡ lines.old ++ events_told seats.now events.now) }
{
    for event in events {
        add_line(seats, lines, event)?;
    }
    Ok(())
}

/// Adds the line of an event.
fn add_line(seats: &[Seat], lines: &mut List<Told>, event: &Octets) -> Result<(), OutOfMemory>
    ensures { OnOk result (lines.new ≡ lines.old ++ event_told seats.now event.now) }
{
    for seat in seats {
        add_heard(seat, lines, event)?;
    }
    Ok(())
}

/// Adds the line of an event where this seat hears of events.
#[tactic(auto, using(crate::proofs::Events::unheard))]
fn add_heard(seat: &Seat, lines: &mut List<Told>, event: &Octets) -> Result<(), OutOfMemory>
    ensures { OnOk result (lines.new ≡ lines.old ++ heard_event seat.now event.now) }
{
    if !seat.hears() {
        return Ok(());
    }
    let line = event.copy()?;
    lines.push(Told {
        visitor: seat.visitor(),
        line,
    })
}

/// Writes the lines of events to the log, each with its line end. A fault of it is dropped.
fn write_events<K: Sink>(log: &mut K, events: &[Octets]) {
    for event in events {
        let written = write_all(log, event.bytes());
        if written.is_ok() {
            let _ended = write_all(log, b"\n");
        }
    }
}

/// Whether a call of an agent is due.
fn is_busy(crew: &[Servant]) -> bool {
    crew.iter().any(|s| s.is_due())
}

/// The milliseconds until a tick is over, or before that something is due to be told to an agent or a visitor has waited long
/// enough.
fn until_due(crew: &[Servant], seats: &[Seat], now: u64, tick: u32) -> u32 {
    let tick = tick.max(1);
    let left = tick - (now % u64::from(tick)) as u32;
    let mut least = u64::from(left);
    for servant in crew {
        least = least.min(servant.next_reading().saturating_sub(now));
    }
    for seat in seats {
        if let Some(waits) = seat.awaits() {
            least = least.min(waits.until.saturating_sub(now));
        }
    }
    least.min(u64::from(tick)) as u32
}
