//! What a round exchanges with the links.

ghost use Rattle.std.specs.Prelude.{◌≡◌};
ghost use Rattle.grasp_node_main.specs.Tells.{links_told, told};
ghost use Rattle.grasp_service.specs.Exchanges.{TakesIn, GivesIn, Exchanged};

use grasp_core::NodeCore;
use grasp_io::{Asked, Clock, Links};
use grasp_node_main::{ask_once, away_of, close_again, hand_over, opened};
use grasp_service_visits::is_starved;
use grasp_shared::step_core;
use grasp_types::{Input, Reply};

/// A round drains at most so many outputs.
const DRAIN: u32 = 64;

/// What came of asking the links: whether an input came, the stream that is to be closed again, and whether the node had no
/// memory for the input.
#[derive(Drop)]
pub(crate) struct Taken {
    pub(crate) came: bool,
    pub(crate) away: Option<u64>,
    pub(crate) starved: bool,
}

/// What came of an exchange: the reading of the clock in milliseconds, whether an input came, whether the drain was full, and
/// whether the node had no memory for one of both.
#[derive(Drop)]
pub(crate) struct Exchange {
    pub(crate) reading: u64,
    pub(crate) came: bool,
    pub(crate) full: bool,
    pub(crate) starved: bool,
}

/// Asks the links once, reads the clock, gives what came to the node, drains the node, and hands over what that gave.
#[tactic(auto, using(crate::proofs::Exchanging::exchanged))]
pub(crate) fn make_turn<L: Links, C: Clock>(
    core: &mut NodeCore,
    wait: u32,
    links: &mut L,
    clock: &mut C,
) -> Exchange
    ensures { Exchanged wait core.old (told (C.readings clock.old)
        (links_told L.Links links.old)) result core.new
        (told (C.readings clock.new)
        (links_told L.Links links.new)) }
{
    let asked = ask_once(links, wait);
    let now = clock.now();
    let taken = take_in(core, now, asked);
    let drained = step_core(core, now, Input::Drain { max: DRAIN });
    hand_over(links, &drained);
    close_again(links, taken.away);
    let full = is_full(&drained);
    let starved = taken.starved | is_starved(&drained);
    drop(drained);
    Exchange {
        reading: now,
        came: taken.came,
        full,
        starved,
    }
}

/// Gives what came to the node.
#[tactic(auto, using(crate::proofs::Exchanging::taking_in))]
fn take_in(core: &mut NodeCore, now: u64, asked: Asked) -> Taken
    ensures { TakesIn core.old now asked result core.new }
{
    match asked {
        Asked::Got(input) => give_in(core, now, input),
        Asked::Nothing => Taken {
            came: false,
            away: None,
            starved: false,
        },
        Asked::OutOfMemory => Taken {
            came: false,
            away: None,
            starved: false,
        },
    }
}

/// Gives an input to the node.
#[tactic(auto, using(crate::proofs::Exchanging::gives_input))]
fn give_in(core: &mut NodeCore, now: u64, input: Input) -> Taken
    ensures { GivesIn core.old now input result core.new }
{
    let stream = opened(&input);
    let reply = step_core(core, now, input);
    let away = away_of(stream, &reply);
    let starved = is_starved(&reply);
    drop(reply);
    Taken {
        came: true,
        away,
        starved,
    }
}

/// Whether a drain gave as many outputs as it may.
fn is_full(reply: &Reply) -> bool {
    match reply {
        Reply::Outputs(outputs) => outputs.len() >= u64::from(DRAIN),
        _ => false,
    }
}
