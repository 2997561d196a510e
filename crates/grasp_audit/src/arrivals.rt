//! Streams that a line says were opened.

ghost use Rattle.std.specs.Prelude.{◌≡◌};
ghost use Rattle.grasp_audit.specs.Coming.{ArrivesSo, NamesBrought, arrives_at, is_odd, waits_with};
ghost use Rattle.grasp_model_network.specs.Setting.{script_address};
ghost use Rattle.grasp_record.specs.declared.line.RecordInput.TheVariants as took;
ghost use Rattle.grasp_simulator.specs.WorldStands.{HasNode};

use crate::brought::named_if;
use grasp_laws_delivery::streams_are_ready;
use grasp_model_network::Event;
use grasp_simulator::{Waiting, World};
use grasp_types::Address;

/// The address of node k is this number and k: fd00::k.
const BEFORE_NODES: u128 = 0xfd00_0000_0000_0000_0000_0000_0000_0000;

/// The arrival of a stream at a node, under this number and from this address, where it waits to be opened so.
pub(crate) fn arrival(world: &World, node: u8, stream: u64, from: Address) -> Option<Event>
    requires { HasNode world.now node }
    ensures { NamesBrought world.now node (took.Opened stream from) (arrives_at stream) result }
{
    streams_are_ready();
    let event = Event::Arrive {
        stream: stream / 2 + 1,
        hold: true,
    };
    named_if(waits_so(world, node, stream, from), event)
}

/// Whether the stream with this number waits to be opened at the node, and was dialled from this address.
fn waits_so(world: &World, node: u8, stream: u64, from: Address) -> bool
    ensures { ArrivesSo world.now node stream from result }
{
    waits_with(stream, node, from, world.waiting(stream / 2 + 1))
}

/// Whether a stream that arrives with this number, if it is odd, waits to be opened at the node, and was dialled from this address.
fn waits_with(stream: u64, node: u8, from: Address, waiting: Option<Waiting>) -> bool
    ensures { result ≡ is_odd stream (waits_with node from waiting) }
{
    if stream % 2 == 0 {
        return false;
    }
    match waiting {
        Some(waiting) => waiting.node == node && address_of(waiting.near) == from,
        None => false,
    }
}

/// The node's address.
fn address_of(node: u8) -> Address
    ensures { result ≡ script_address node }
{
    Address::V6(BEFORE_NODES + u128::from(node))
}
