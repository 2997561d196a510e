//! What a network lends of what was sent in it.

ghost use Rattle.std.specs.Prelude.{◌≡◌, ◌<◌, length, option_map, position, IfOk, IfSome};
ghost use Rattle.grasp_model_network.specs.Setting.{counted_from_1};
ghost use Rattle.grasp_model_network.specs.declared.event.Event.TheVariants as event;
ghost use Rattle.grasp_model_network.specs.declared.report.Report.TheVariants as report;
ghost use Rattle.grasp_simulator.specs.Lending.{LendsFirst, LendsNext, LendsOutputs, LendsParcel, LendsSide, TellsStream, TellsWaiting, is_so, sent_of};
ghost use Rattle.grasp_simulator.specs.WorldStands.{HasNode};
ghost use Rattle.grasp_simulator.specs.WorldSteps.{Ends, IsAsked, Stepped};

use crate::parcel::Parcel;
use crate::world::World;
use crate::world_arrivals::Waiting;
use crate::world_events::MOST_BYTES;
use grasp_cbor::OutOfMemory;
use grasp_laws_delivery::streams_are_ready;
use grasp_laws_node_stories::acceptances_are_calls;
use grasp_laws_prefixes::grounds_hold;
use grasp_model_network::WorldStop;
use grasp_types::Outputs;

/// A side of a stream: the node, and the number that the stream has there.
#[derive(Clone, Copy, Debug, PartialEq, Eq)]
pub struct SideEnd {
    /// The node.
    pub node: u8,
    /// The number of the stream at the node.
    pub number: u64,
}

impl World {
    /// The event `Drain`: at most so many outputs of a node are sent, which are lent. After an `Err` every later event is answered
    /// by it again.
    pub fn drain(&mut self, node: u8, max: u32) -> Result<Outputs, WorldStop>
        requires { IsAsked self.old (event.Drain node max) }
        ensures steps { Stepped self.old self.new (event.Drain node max) (sent_of result) }
        ensures outputs { IfOk result (λ outputs. LendsOutputs self.old node max outputs) }
    {
        if let Some(stop) = self.stopped {
            return Err(stop);
        }
        grounds_hold();
        acceptances_are_calls();
        match self.give(node, max) {
            Ok(outputs) => self.end_given(outputs),
            Err(OutOfMemory) => Err(self.stop(WorldStop::OutOfMemory)),
        }
    }

    /// The outputs of a drain are lent, unless more was sent than may be.
    fn end_given(&mut self, outputs: Outputs) -> Result<Outputs, WorldStop>
        ensures ends { Ends self.old self.new (report.Sent (length outputs)) (sent_of result) }
        ensures same { IfOk result (λ lent. lent ≡ outputs) }
    {
        if self.sent > MOST_BYTES {
            return Err(self.stop(WorldStop::TooMuch));
        }
        Ok(outputs)
    }

    /// The datagram of this number, from 1 on in the order in which they were sent.
    pub fn parcel(&self, index: u64) -> Option<&Parcel>
        ensures { LendsParcel self.now index (option_map (λ code. code.now) result) }
    {
        self.parcel_at(index)
    }

    /// The number of the first datagram that comes to this node on this link, from this neighbour, with these bytes.
    pub fn first_parcel(&self, node: u8, link: u8, from: u8, bytes: &[u8]) -> Option<u64>
        ensures { LendsFirst self.now node link from bytes.now result }
    {
        let place = self.first_place(node, link, from, bytes);
        let count = self.parcels.len();
        counted(place, count)
    }

    /// The place of that datagram among those that were sent.
    fn first_place(&self, node: u8, link: u8, from: u8, bytes: &[u8]) -> Option<usize>
        ensures { result ≡ position (is_so node link from bytes.now) self.now.parcels }
    {
        self.parcels
            .slice()
            .iter()
            .position(|parcel| parcel.is_so(node, link, from, bytes))
    }

    /// The side of the stream of this number, where what comes is delivered to it. Streams are numbered from 1 on, in the order in
    /// which their dials were sent.
    pub fn side(&self, stream: u64, far: bool) -> Option<SideEnd>
        ensures { LendsSide self.now stream far result }
    {
        streams_are_ready();
        let end = self.streams.side(stream, far)?;
        let node = self.member(end.life)?;
        Some(SideEnd {
            node,
            number: end.number,
        })
    }

    /// The next so many bytes of the stream of this number that the other side sent and that aren't delivered yet, or all that are
    /// left.
    pub fn next_bytes(&self, stream: u64, far: bool, count: u64) -> &[u8]
        ensures { LendsNext self.now stream far count result.now }
    {
        self.streams.piece(stream, far, count)
    }

    /// Who dialled the stream of this number and who is to open it, where it isn't opened yet and a node listens where it was
    /// dialled to.
    pub fn waiting(&self, stream: u64) -> Option<Waiting>
        ensures { TellsWaiting self.now stream result }
    {
        streams_are_ready();
        self.waiting_at(stream)
    }

    /// The number among the dials that were sent of the stream that has this number at the node, and whether the node is its far
    /// side.
    pub fn stream_of(&self, node: u8, number: u64) -> Option<(u64, bool)>
        requires { HasNode self.now node }
        ensures { TellsStream self.now node number result }
    {
        self.streams.number_of(self.seat(node).life, number)
    }
}

/// The number, from 1 on, of what stands at this place among so many.
fn counted(place: Option<usize>, count: u64) -> Option<u64>
    requires { IfSome place (λ p. p < count) }
    ensures { result ≡ counted_from_1 place }
{
    let place = place?;
    Some(place as u64 + 1)
}
