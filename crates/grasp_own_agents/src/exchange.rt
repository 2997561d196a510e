//! What a turn exchanges with the links.

ghost use Rattle.std.specs.Prelude.{◌≡◌};
ghost use Rattle.grasp_node_main.specs.Tells.{links_told, told};
ghost use Rattle.grasp_own_agents.specs.Running.{TakesIn, GivesIn, Exchanged, Drained};

use grasp_core::NodeCore;
use grasp_io::{Asked, Clock, Links};
use grasp_node_main::{ask_once, away_of, close_again, hand_over, opened};
use grasp_shared::step_core;
use grasp_types::Input;

/// A turn drains at most so many outputs.
const DRAIN: u32 = 64;

/// After the last turn at most so many outputs are drained: more than a node has.
const LAST_DRAIN: u32 = 320;

/// Asks the links once, reads the clock, gives what came to the node, drains the node, and hands over what that gave. The answer is the
/// reading of the clock, in milliseconds.
#[tactic(auto, using(crate::proofs::Exchanged::exchanged))]
pub(crate) fn exchange<L: Links, C: Clock>(
    core: &mut NodeCore,
    wait: u32,
    links: &mut L,
    clock: &mut C,
) -> u64
    ensures { Exchanged wait core.old (told (C.readings clock.old) (links_told L.Links links.old)) result core.new
        (told (C.readings clock.new) (links_told L.Links links.new)) }
{
    let asked = ask_once(links, wait);
    let now = clock.now();
    let away = take_in(core, now, asked);
    let drained = step_core(core, now, Input::Drain { max: DRAIN });
    hand_over(links, &drained);
    close_again(links, away);
    drop(drained);
    now
}

/// Gives what came to the node. The answer is the stream that is to be closed again.
#[tactic(auto, using(crate::proofs::Exchanged::taking_in))]
fn take_in(core: &mut NodeCore, now: u64, asked: Asked) -> Option<u64>
    ensures { TakesIn core.old now asked result core.new }
{
    match asked {
        Asked::Got(input) => give_in(core, now, input),
        Asked::Nothing => None,
        Asked::OutOfMemory => None,
    }
}

/// Gives an input to the node. The answer is the stream that it opened, where it is to be closed again.
#[tactic(auto, using(crate::proofs::Exchanged::gives_input))]
fn give_in(core: &mut NodeCore, now: u64, input: Input) -> Option<u64>
    ensures { GivesIn core.old now input result core.new }
{
    let stream = opened(&input);
    let reply = step_core(core, now, input);
    let away = away_of(stream, &reply);
    drop(reply);
    away
}

/// The last drain, at a reading in milliseconds: its outputs are handed to the links.
pub(crate) fn drain_last<L: Links>(core: &mut NodeCore, now: u64, links: &mut L)
    ensures { Drained now core.old (links_told L.Links links.old) core.new (links_told L.Links links.new) }
{
    let drained = step_core(core, now, Input::Drain { max: LAST_DRAIN });
    hand_over(links, &drained);
    drop(drained);
}
