//! The event that a line names.

ghost use Rattle.std.specs.Prelude.{◌≡◌, IfOk};
ghost use Rattle.grasp_audit.specs.Lines.{NamesEvent};
ghost use Rattle.grasp_audit.specs.Standing.{HasLine};
ghost use Rattle.grasp_model_audit.specs.Naming.{datagram_event};
ghost use Rattle.grasp_model_network.specs.Setting.{Setting};
ghost use Rattle.grasp_model_network.specs.World.{WorldState};
ghost use Rattle.grasp_simulator.specs.Lending.{StandsFor};

use crate::arrivals::arrival;
use crate::calls::placed_call;
use crate::sides::{closing, piece};
use grasp_cbor::{Octets, OutOfMemory};
use grasp_model_network::Event;
use grasp_record::{RecordInput, RecordLine};
use grasp_simulator::World;

/// The event that a line names, or `None` where what it says came in wasn't sent there or doesn't come there next.
pub(crate) fn name_event(world: &World, line: &RecordLine) -> Result<Option<Event>, OutOfMemory>
    requires { HasLine world.now line.now }
    ensures { IfOk result (λ found. NamesEvent world.now line.entry.now found) }
{
    let node = line.node;
    match &line.input {
        RecordInput::Api { asa, call } => Ok(Some(Event::Api {
            node,
            asa: *asa,
            call: placed_call(world, node, call)?,
            hold: true,
        })),
        RecordInput::Agent { .. } => Ok(Some(Event::Agent { node, hold: true })),
        RecordInput::Want {
            length,
            longest,
            peer,
        } => Ok(Some(Event::Want {
            node,
            length: *length,
            longest: *longest,
            peer: *peer,
        })),
        RecordInput::Return { prefix, peer } => Ok(Some(Event::Return {
            node,
            prefix: *prefix,
            peer: *peer,
        })),
        RecordInput::Datagram { link, from, bytes } => {
            Ok(delivery(world, node, *link, *from, bytes))
        }
        RecordInput::Opened { stream, from } => Ok(arrival(world, node, *stream, *from)),
        RecordInput::Bytes { stream, bytes } => Ok(piece(world, node, *stream, bytes)),
        RecordInput::Closed { stream } => Ok(closing(world, node, *stream)),
        RecordInput::Drain { max } => Ok(Some(Event::Drain { node, max: *max })),
    }
}

/// The delivery of the first datagram that comes to the node on this link, from this neighbour, with these bytes.
fn delivery(world: &World, node: u8, link: u8, from: u8, bytes: &Octets) -> Option<Event>
    ensures { (s : Setting) (w : WorldState) → StandsFor world.now s w → datagram_event w node link from bytes.now ≡ result }
{
    match world.first_parcel(node, link, from, bytes.bytes()) {
        Some(index) => Some(Event::Datagram { index, hold: true }),
        None => None,
    }
}
