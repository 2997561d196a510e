//! What a turn exchanges with the links.

ghost use Rattle.std.specs.Prelude.{◌≡◌, ◌≤◌};
ghost use Rattle.grasp_shared.specs.Handles.{IsRootOf, out_of};
ghost use Rattle.grasp_node_main.specs.Steps.{TakesIn, GivesIn, DrainsOut, Exchanges};
ghost use Rattle.grasp_node_main.specs.Tells.{links_told, told};

use crate::handing::{ask_once, away_of, close_again, hand_over, opened};
use grasp_io::{Asked, Clock, Links};
use grasp_shared::{Root, Shared};
use grasp_types::Input;
use std::sync::Wait;

/// A turn drains at most so many outputs.
const DRAIN: u32 = 64;

/// After the last turn at most so many outputs are drained: more than a node has.
const LAST_DRAIN: u32 = 320;

/// One turn of the network loop, and its reading of the clock, in milliseconds.
pub(crate) fn exchange<R: Wait, L: Links, C: Clock>(
    rt: &R,
    shared: &Shared,
    wait: u32,
    root: &mut Root,
    links: &mut L,
    clock: &mut C,
) -> u64
    requires { IsRootOf shared.now root.old }
    ensures exchanges { Exchanges shared.now wait root.old (told (C.readings clock.old) (links_told L.Links links.old)) result root.new
        (told (C.readings clock.new) (links_told L.Links links.new)) }
    ensures later { C.latest clock.old ≤ result }
    ensures latest { C.latest clock.new ≡ result }
{
    let now = clock.now();
    let away = take_in(rt, shared, now, wait, root, links);
    drain_out(rt, shared, now, root, links);
    close_again(links, away);
    now
}

/// Asks the links once, and gives what they gave to the node. The answer is the stream that is to be closed again.
fn take_in<R: Wait, L: Links>(
    rt: &R,
    shared: &Shared,
    now: u64,
    wait: u32,
    root: &mut Root,
    links: &mut L,
) -> Option<u64>
    requires { IsRootOf shared.now root.old }
    ensures { TakesIn shared.now now wait root.old (links_told L.Links links.old) result root.new (links_told L.Links links.new) }
{
    match ask_once(links, wait) {
        Asked::Got(input) => give_in(rt, shared, now, root, input),
        Asked::Nothing => None,
        Asked::OutOfMemory => None,
    }
}

/// Gives an input to the node. The answer is the stream that it opened, where it is to be closed again.
fn give_in<R: Wait>(rt: &R, shared: &Shared, now: u64, root: &mut Root, input: Input) -> Option<u64>
    requires { IsRootOf shared.now root.old }
    ensures { GivesIn shared.now now input root.old result root.new }
{
    let stream = opened(&input);
    let reply = shared.root_call(rt, root, now, input);
    away_of(stream, &reply)
}

/// Drains the node, and hands its outputs over.
fn drain_out<R: Wait, L: Links>(rt: &R, shared: &Shared, now: u64, root: &mut Root, links: &mut L)
    requires { IsRootOf shared.now root.old }
    ensures { DrainsOut shared.now now 64 root.old (links_told L.Links links.old) root.new (links_told L.Links links.new) }
{
    let reply = shared.root_call(rt, root, now, Input::Drain { max: DRAIN });
    hand_over(links, &reply);
}

/// The last drain, once all passes were given back. It waits for nobody.
pub(crate) fn drain_last<L: Links>(shared: &Shared, now: u64, root: &mut Root, links: &mut L)
    requires own { IsRootOf shared.now root.old }
    requires alone { out_of root.old ≡ 0 }
    ensures { DrainsOut shared.now now 320 root.old (links_told L.Links links.old) root.new (links_told L.Links links.new) }
{
    match shared.root_try_call(root, now, Input::Drain { max: LAST_DRAIN }) {
        Ok(reply) => hand_over(links, &reply),
        Err(_) => unreachable!(),
    }
}
