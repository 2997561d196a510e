//! What the links are asked, and what is handed to them behind an input and a drain.

ghost use Rattle.std.specs.Prelude.{◌≡◌, [], if◌then◌else◌};
ghost use Rattle.grasp_node_main.specs.Tells.{AsksOnce, HandsOnly, links_told};
ghost use Rattle.grasp_node_main.specs.Turns.{opened_in, is_away, closings, outputs_in};

use grasp_io::{Asked, Links};
use grasp_types::{Input, Output, Reply};

/// Asks the links once. It waits at most so many milliseconds.
pub fn ask_once<L: Links>(links: &mut L, wait: u32) -> Asked
    ensures { AsksOnce wait (links_told L.Links links.old) result (links_told L.Links links.new) }
{
    links.ask(wait)
}

/// The stream, where its opening was turned away or there was no memory for it.
pub fn away_of(stream: Option<u64>, reply: &Reply) -> Option<u64>
    ensures { closings result ≡ (if is_away reply.now then closings stream else []) }
{
    if is_away(reply) { stream } else { None }
}

/// The stream that a peer opened.
pub fn opened(input: &Input) -> Option<u64>
    ensures { result ≡ opened_in input.now }
{
    match input {
        Input::Opened { stream, .. } => Some(*stream),
        _ => None,
    }
}

/// Whether an input was turned away, or there was no memory for it.
fn is_away(reply: &Reply) -> bool
    ensures { result ≡ is_away reply.now }
{
    matches!(reply, Reply::Turned | Reply::OutOfMemory)
}

/// Hands the outputs that a drain was answered to the links, in order.
#[tactic(auto, using(crate::proofs::Told::hands_nothing))]
pub fn hand_over<L: Links>(links: &mut L, reply: &Reply)
    ensures { HandsOnly (links_told L.Links links.old) (outputs_in reply.now) (links_told L.Links links.new) }
{
    match reply {
        Reply::Outputs(outputs) => send_all(links, outputs.slice()),
        Reply::Api(_) => (),
        Reply::Refused(_) => (),
        Reply::Taken => (),
        Reply::Turned => (),
        Reply::OutOfMemory => (),
    }
}

/// Hands outputs to the links, in order.
pub fn send_all<L: Links>(links: &mut L, outputs: &[Output])
    ensures { HandsOnly (links_told L.Links links.old) outputs.now (links_told L.Links links.new) }
{
    for output in outputs {
        let _sent = links.send(output);
    }
}

/// Closes a stream that was turned away, where there is one.
#[tactic(auto, using(crate::proofs::Told::hands_nothing))]
pub fn close_again<L: Links>(links: &mut L, away: Option<u64>)
    ensures { HandsOnly (links_told L.Links links.old) (closings away) (links_told L.Links links.new) }
{
    if let Some(stream) = away {
        let _sent = links.send(&Output::Close { stream });
    }
}
