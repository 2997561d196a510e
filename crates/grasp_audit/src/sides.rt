//! What a line says came to a side of a stream.

ghost use Rattle.std.specs.Prelude.{◌≡◌, Some, length};
ghost use Rattle.grasp_audit.specs.Coming.{IsSideOf, NamesBrought, bytes_at, closing_at, is_end};
ghost use Rattle.grasp_record.specs.declared.line.RecordInput.TheVariants as took;
ghost use Rattle.grasp_simulator.specs.Lending.{TellsStream};
ghost use Rattle.grasp_simulator.specs.WorldStands.{HasNode};

use crate::brought::{named_if, named_if_both};
use crate::split::are_same;
use grasp_cbor::Octets;
use grasp_laws_delivery::streams_are_ready;
use grasp_model_network::Event;
use grasp_simulator::{SideEnd, World};

/// The delivery of these bytes to the side of a stream that has this number at the node, where they come there next.
pub(crate) fn piece(world: &World, node: u8, stream: u64, bytes: &Octets) -> Option<Event>
    requires { HasNode world.now node }
    ensures { NamesBrought world.now node (took.Bytes stream bytes.now) (bytes_at node stream (length bytes.now)) result }
{
    match world.stream_of(node, stream) {
        Some((number, far)) => piece_on(world, node, stream, bytes, number, far),
        None => None,
    }
}

/// The delivery of these bytes to this side of a stream, where they come there next.
fn piece_on(
    world: &World,
    node: u8,
    stream: u64,
    bytes: &Octets,
    number: u64,
    far: bool,
) -> Option<Event>
    requires node { HasNode world.now node }
    requires stream { TellsStream world.now node stream (Some (number, far)) }
    ensures { NamesBrought world.now node (took.Bytes stream bytes.now) (bytes_at node stream (length bytes.now)) result }
{
    streams_are_ready();
    let count = bytes.len();
    let next = are_same(world.next_bytes(number, far, count), bytes.bytes());
    let event = Event::Bytes {
        stream: number,
        far,
        count,
        hold: true,
    };
    named_if_both(has_side(world, node, stream, number, far), next, event)
}

/// The closing of the side of a stream that has this number at the node, where that gets anything.
pub(crate) fn closing(world: &World, node: u8, stream: u64) -> Option<Event>
    requires { HasNode world.now node }
    ensures { NamesBrought world.now node (took.Closed stream) (closing_at node stream) result }
{
    match world.stream_of(node, stream) {
        Some((number, far)) => closing_on(world, node, stream, number, far),
        None => None,
    }
}

/// The closing of this side of a stream, where that gets anything.
fn closing_on(world: &World, node: u8, stream: u64, number: u64, far: bool) -> Option<Event>
    requires node { HasNode world.now node }
    requires stream { TellsStream world.now node stream (Some (number, far)) }
    ensures { NamesBrought world.now node (took.Closed stream) (closing_at node stream) result }
{
    streams_are_ready();
    let event = Event::Cut {
        stream: number,
        far,
        hold: true,
    };
    named_if(has_side(world, node, stream, number, far), event)
}

/// Whether what comes on this side of a stream is delivered to the node, which knows it by this number.
fn has_side(world: &World, node: u8, stream: u64, number: u64, far: bool) -> bool
    ensures { IsSideOf world.now node stream number far result }
{
    is_end(world.side(number, far), node, stream)
}

/// Whether it is the side of this node, which knows the stream by this number.
fn is_end(end: Option<SideEnd>, node: u8, stream: u64) -> bool
    ensures { result ≡ is_end node stream end }
{
    match end {
        Some(end) => end.node == node && end.number == stream,
        None => false,
    }
}
