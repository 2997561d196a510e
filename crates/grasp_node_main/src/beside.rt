//! The network loop and the agents, beside each other.

ghost use Rattle.std.specs.Prelude.{length};
ghost use Rattle.std.specs.Thread.{IsSync};
ghost use Rattle.grasp_shared.specs.Handles.{IsRootOf};
ghost use Rattle.grasp_node_main.specs.Sharing.{HasPass, AllHavePasses, SeatGoes, SeatsGo};
ghost use Rattle.grasp_node_main.specs.Steps.{Looped};
ghost use Rattle.grasp_node_main.specs.Tells.{links_told, told};

use crate::exchange::exchange;
use crate::gate::Gate;
use crate::pace::Pace;
use crate::seated_agent::SeatedAgent;
use grasp_io::{Clock, Links};
use grasp_shared::{Root, Shared};
use std::sync::Wait;
use std::thread::{Threads, for_each_mut, join_mut};

/// All turns of the network loop, and the last reading of the clock, or 0 where there was none.
fn run_loop<R: Wait, L: Links, C: Clock>(
    rt: &R,
    shared: &Shared,
    pace: &Pace,
    turns: u32,
    wait: u32,
    root: &mut Root,
    links: &mut L,
    clock: &mut C,
) -> u64
    requires { IsRootOf shared.now root.old }
    ensures { Looped shared.now wait turns root.old (told (C.readings clock.old) (links_told L.Links links.old)) result root.new
        (told (C.readings clock.new) (links_told L.Links links.new)) }
{
    let mut now = 0;
    for _turn in 0..turns {
        now = exchange(rt, shared, wait, root, links, clock);
        pace.step();
    }
    now
}

/// All turns of all agents, each in a thread of its own where one can be had.
fn run_seats<R: Threads + Wait + Sync, G: Gate + Sync>(
    rt: &R,
    shared: &Shared,
    gate: &G,
    pace: &Pace,
    turns: u32,
    seats: &mut [SeatedAgent],
)
    requires { AllHavePasses shared.now seats.old }
    ensures { SeatsGo shared.now turns seats.old seats.new }
{
    if seats.is_empty() {
        return;
    }
    let count = seats.len();
    for_each_mut(
        rt,
        seats,
        count,
        &|place: usize, seat: &mut SeatedAgent|
            requires { HasPass shared.now seat.old }
            ensures { SeatGoes shared.entry.now turns seat.old seat.new }
        { seat.run(rt, shared, gate, pace, place, turns) },
    );
}

/// All turns of the network loop, in this thread, and of all agents beside it, in threads of their own. The answer is the
/// last reading of the clock. Where no thread can be had, this thread makes the agents' turns after the loop's.
pub(crate) fn run_beside<R: Threads + Wait + Sync, L: Links, C: Clock, G: Gate + Sync>(
    rt: &R,
    shared: &Shared,
    gate: &G,
    turns: u32,
    wait: u32,
    links: &mut L,
    clock: &mut C,
    root: &mut Root,
    seats: &mut [SeatedAgent],
) -> u64
    requires root { IsRootOf shared.now root.old }
    requires passes { AllHavePasses shared.now seats.old }
    ensures looped { Looped shared.now wait turns root.old (told (C.readings clock.old) (links_told L.Links links.old)) result root.new
        (told (C.readings clock.new) (links_told L.Links links.new)) }
    ensures went { SeatsGo shared.now turns seats.old seats.new }
{
    let pace = Pace::new();
    let pace = &pace;
    let mut agents = ||
        requires { IsSync R.row × IsSync G.row × AllHavePasses shared.now seats.now }
        ensures { SeatsGo shared.entry.now turns seats.entry.now seats.exit.now }
    { run_seats(rt, shared, gate, pace, turns, seats) };
    let mut network = || -> u64
        requires { IsRootOf shared.now root.now }
        ensures { Looped shared.entry.now wait turns root.entry.now (told (C.readings clock.entry.now) (links_told L.Links links.entry.now)) result
            root.exit.now (told (C.readings clock.exit.now) (links_told L.Links links.exit.now)) }
    { run_loop(rt, shared, pace, turns, wait, root, links, clock) };
    let (_, now) = join_mut(rt, &mut agents, &mut network);
    now
}
