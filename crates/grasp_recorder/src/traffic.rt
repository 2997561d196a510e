//! What an event brings to a node.

ghost use Rattle.std.specs.Prelude.{◌≡◌, IfOk};
ghost use Rattle.grasp_model_network.specs.Setting.{script_address};
ghost use Rattle.grasp_model_network.specs.declared.event.Event.TheVariants as event;
ghost use Rattle.grasp_simulator.specs.StreamParts.{far_number};
ghost use Rattle.grasp_recorder.specs.Taking.{CanHappen, IsRecordedStep, TellsTaken};

use crate::taken::Taken;
use grasp_agent::Agent;
use grasp_cbor::{Octets, OutOfMemory};
use grasp_laws_delivery::streams_are_ready;
use grasp_model_network::Event;
use grasp_record::RecordInput;
use grasp_simulator::World;
use grasp_types::{Address, Plain};
use std::alloc::Global;

/// The address of node k is this number and k: fd00::k.
const BEFORE_FIRST: u128 = 0xfd00_0000_0000_0000_0000_0000_0000_0000;

/// The node's address.
fn address_of(node: u8) -> Address
    ensures { result ≡ script_address node }
{
    Address::V6(BEFORE_FIRST + u128::from(node))
}

/// The number of the stream of this number where it arrives.
fn far_number(stream: u64) -> u64
    ensures { result ≡ far_number stream }
{
    stream.saturating_mul(2).saturating_sub(1)
}

/// What the event's node takes at it, where something comes of the event.
pub(crate) fn taken_at(
    alloc: Global,
    world: &World,
    event: &Event,
) -> Result<Option<Taken>, OutOfMemory>
    requires happens { CanHappen world.now event.now }
    requires step { IsRecordedStep event.now }
    ensures { IfOk result (λ taken. TellsTaken world.now event.now taken) }
{
    match event {
        Event::Want {
            node,
            length,
            longest,
            peer,
        } => Ok(Some(Taken {
            node: *node,
            input: RecordInput::Want {
                length: *length,
                longest: *longest,
                peer: *peer,
            },
        })),
        Event::Return { node, prefix, peer } => Ok(Some(Taken {
            node: *node,
            input: RecordInput::Return {
                prefix: *prefix,
                peer: *peer,
            },
        })),
        Event::Agent { node, hold } => own_call(world, *node, *hold),
        Event::Api {
            node,
            asa,
            call,
            hold: _,
        } => Ok(Some(Taken {
            node: *node,
            input: RecordInput::Api {
                asa: *asa,
                call: call.copy()?,
            },
        })),
        Event::Datagram { index, hold } => datagram(world, *index, *hold),
        Event::Arrive { stream, hold } => Ok(opening(world, *stream, *hold)),
        Event::Bytes {
            stream,
            far,
            count,
            hold,
        } => piece(alloc, world, *stream, *far, *count, *hold),
        Event::Cut { stream, far, hold } => Ok(closing(world, *stream, *far, *hold)),
        Event::Clock { .. } | Event::Drain { .. } => unreachable!(),
    }
}

/// The next call of the node's own agent.
fn own_call(world: &World, node: u8, hold: bool) -> Result<Option<Taken>, OutOfMemory>
    requires { CanHappen world.now (event.Agent node hold) }
    ensures { IfOk result (λ taken. TellsTaken world.now (event.Agent node hold) taken) }
{
    Ok(Some(Taken {
        node,
        input: RecordInput::Agent {
            call: world.agent(node).next()?,
        },
    }))
}

/// A datagram that was sent.
fn datagram(world: &World, index: u64, hold: bool) -> Result<Option<Taken>, OutOfMemory>
    ensures { IfOk result (λ taken. TellsTaken world.now (event.Datagram index hold) taken) }
{
    match world.parcel(index) {
        Some(parcel) => Ok(Some(Taken {
            node: parcel.receiver,
            input: RecordInput::Datagram {
                link: parcel.link,
                from: parcel.from,
                bytes: parcel.bytes.copy()?,
            },
        })),
        None => Ok(None),
    }
}

/// A stream that is opened where it was dialled to.
fn opening(world: &World, stream: u64, hold: bool) -> Option<Taken>
    ensures { TellsTaken world.now (event.Arrive stream hold) result }
{
    streams_are_ready();
    match world.waiting(stream) {
        Some(waiting) => Some(Taken {
            node: waiting.node,
            input: RecordInput::Opened {
                stream: far_number(stream),
                from: address_of(waiting.near),
            },
        }),
        None => None,
    }
}

/// The next bytes of a stream.
fn piece(
    alloc: Global,
    world: &World,
    stream: u64,
    far: bool,
    count: u64,
    hold: bool,
) -> Result<Option<Taken>, OutOfMemory>
    ensures { IfOk result (λ taken. TellsTaken world.now (event.Bytes stream far count hold) taken) }
{
    match world.side(stream, far) {
        Some(side) => Ok(Some(Taken {
            node: side.node,
            input: RecordInput::Bytes {
                stream: side.number,
                bytes: Octets::of(alloc, world.next_bytes(stream, far, count))?,
            },
        })),
        None => Ok(None),
    }
}

/// The end of a stream.
fn closing(world: &World, stream: u64, far: bool, hold: bool) -> Option<Taken>
    ensures { TellsTaken world.now (event.Cut stream far hold) result }
{
    match world.side(stream, far) {
        Some(side) => Some(Taken {
            node: side.node,
            input: RecordInput::Closed {
                stream: side.number,
            },
        }),
        None => None,
    }
}
