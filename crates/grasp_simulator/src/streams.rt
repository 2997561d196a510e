//! The table of the streams of a network.

ghost use Rattle.std.specs.Prelude.{◌≡◌, ◌+◌, ◌<◌, ℕ, List, [], Some, length, map, nat_le, option_map, slice_get, OnOk, OnErr, IfSome};
ghost use Rattle.grasp_model_node.specs.Queue.{encoding};
ghost use Rattle.grasp_types.specs.declared.message.Message.{Message};
ghost use Rattle.grasp_model_network.specs.Streams.{StreamState, stream_numbered, change_at_end, told_closed, with_delivered, with_ended};
ghost use Rattle.grasp_model_network.specs.Streams.{with_number, with_sent, with_side};
ghost use Rattle.grasp_model_network.specs.World.{end_of};
ghost use Rattle.grasp_model_network.specs.Setting.{numbered};
ghost use Rattle.grasp_simulator.specs.StreamParts.{no_sent, first_standing, first_stream, side_of, piece_at, ended_at};
ghost use Rattle.grasp_laws_delivery.specs.Ready.{AreSent, IsDialOf};
ghost use Rattle.grasp_simulator.specs.Arriving.{Opens};
ghost use Rattle.grasp_simulator.specs.Lending.{TellsNumber};
ghost use Rattle.grasp_simulator.specs.StreamsStand.{StreamsStand, Queueing, most_streams, ChangesAt, IsTalk, dial_at, near_place, far_here, place_in};

use crate::stream::{LifeEnd, Sent, Standing, Stream};
use grasp_cbor::{Octets, OutOfMemory};
use grasp_types::Locator;
use indexmap::IndexMap;
use std::alloc::Global;

/// There is room for so many streams. Nothing can hold as many.
const MOST_STREAMS: usize = 1 << 62;

/// The streams whose dials were sent, in that order, and the number from 1 that each has there, by its near end.
#[derive(Drop)]
pub(crate) struct Streams {
    list: Vec<Stream>,
    near: IndexMap<LifeEnd, u64>,
}

impl Streams {
    /// No streams.
    pub(crate) fn new(alloc: Global) -> Streams
        ensures { (begins : Queueing) → StreamsStand result begins [] 0 }
    {
        Streams {
            list: Vec::new(alloc),
            near: IndexMap::new(alloc),
        }
    }

    /// The number of the dial that was sent from this end.
    fn dial_at(&self, life: u64, number: u64) -> Option<u64>
        ensures { result ≡ dial_at self.now.near.entries (end_of life number) }
    {
        self.near.get(&LifeEnd { life, number }).copied()
    }

    /// The place of the stream with this near end.
    fn near_place(&self, life: u64, number: u64) -> Option<(usize, bool)>
        ensures place { result ≡ near_place self.now.list.items (end_of life number) (dial_at self.now.near.entries (end_of life number)) }
        ensures within { IfSome result (λ p. p.0 < length self.now.list.items) }
    {
        let place = self.dial_at(life, number)?.saturating_sub(1) as usize;
        let stream = self.list.get(place)?;
        if life == stream.near && number == stream.number {
            Some((place, false))
        } else {
            None
        }
    }

    /// The place of the stream with this far end.
    fn far_place(&self, life: u64, place: usize) -> Option<(usize, bool)>
        ensures place { result ≡ far_here (slice_get self.now.list.items place) life place }
        ensures within { IfSome result (λ p. p.0 < length self.now.list.items) }
    {
        let stream = self.list.get(place)?;
        let far = stream.far?;
        if far == life {
            Some((place, true))
        } else {
            None
        }
    }

    /// The place of the stream with this end, and whether it is the far end.
    fn place_of(&self, life: u64, number: u64) -> Option<(usize, bool)>
        ensures place { result ≡ place_in self.now.list.items self.now.near.entries life number }
        ensures within { IfSome result (λ p. p.0 < length self.now.list.items) }
    {
        if number % 2 == 0 {
            self.near_place(life, number)
        } else {
            self.far_place(life, (number / 2) as usize)
        }
    }

    /// The number of the stream with this end among the dials that were sent, and whether it is the far end.
    pub(crate) fn number_of(&self, life: u64, number: u64) -> Option<(u64, bool)>
        ensures { TellsNumber self.now life number result }
    {
        let (place, far) = self.place_of(life, number)?;
        Some((place as u64 + 1, far))
    }

    /// Whether there is no room for another stream.
    pub(crate) fn is_full(&self) -> bool
        ensures { result ≡ nat_le most_streams (length self.now.list.items) }
    {
        MOST_STREAMS <= self.list.len()
    }

    /// The next dial is sent: that of the stream with this number in this life, to this locator. Its far side waits to be opened,
    /// or was told before that the stream is closed. After an `Err` nothing is said of the table.
    pub(crate) fn dial(
        &mut self,
        life: u64,
        number: u64,
        to: Locator,
        closed: bool,
    ) -> Result<(), OutOfMemory>
        requires { length self.old.list.items < most_streams }
        ensures stands { OnOk result ((begins : Queueing) (ts : List StreamState) (dials : ℕ) → IsDialOf ts (end_of life number) to
            → begins (end_of life number) to ≡ Some closed → StreamsStand self.old begins ts dials
            → StreamsStand self.new begins (change_at_end ts (end_of life number) (with_number (dials + 1))) (dials + 1)) }
    {
        let alloc = *self.near.allocator();
        self.list
            .push(first_stream(alloc, life, number, to, closed))?;
        let k = self.list.len() as u64;
        self.near.insert(LifeEnd { life, number }, k)?;
        Ok(())
    }

    /// The side with this end has ended its direction, of which nothing is kept.
    pub(crate) fn close(&mut self, life: u64, number: u64)
        ensures stands { (begins : Queueing) (ts : List StreamState) (dials : ℕ) → StreamsStand self.old begins ts dials
            → StreamsStand self.new begins (change_at_end ts (end_of life number) with_ended) dials }
    {}

    /// The stream at this place.
    fn at(&self, place: usize) -> Option<&Stream>
        ensures { option_map (λ code. code.now) result ≡ slice_get self.now.list.items place }
    {
        self.list.get(place)
    }

    /// The stream of this number among the dials that were sent.
    pub(crate) fn get(&self, k: u64) -> Option<&Stream>
        ensures stream { option_map (λ code. code.now) result ≡ numbered self.now.list.items k }
        ensures stands { (begins : Queueing) (ts : List StreamState) (dials : ℕ) → StreamsStand self.now begins ts dials
            → IsTalk k (numbered self.now.list.items k) (stream_numbered ts k) }
    {
        if k == 0 {
            return None;
        }
        self.at((k - 1) as usize)
    }

    /// What is allocated with.
    pub(crate) fn allocator(&self) -> Global {
        *self.near.allocator()
    }

    /// The side of the stream of this number, where what comes is delivered to it.
    pub(crate) fn side(&self, k: u64, far: bool) -> Option<LifeEnd>
        ensures { result ≡ side_of (numbered self.now.list.items k) k far }
    {
        self.get(k)?.side(k, far)
    }

    /// The next so many bytes of the stream of this number that the other side sent and that aren't delivered yet, or all that
    /// are left.
    pub(crate) fn piece(&self, k: u64, far: bool, count: u64) -> &[u8]
        ensures { result.now ≡ piece_at (numbered self.now.list.items k) far count }
    {
        match self.get(k) {
            Some(stream) => stream.piece(far, count),
            None => &[],
        }
    }

    /// The stream with this end sends these bytes, where there is one. After an `Err` nothing has changed.
    pub(crate) fn send(&mut self, life: u64, number: u64, bytes: &[u8]) -> Result<(), OutOfMemory>
        ensures stands { OnOk result ((begins : Queueing) (ts : List StreamState) (dials : ℕ) (m : Message) → bytes.now ≡ encoding m
            → AreSent ts (end_of life number) → StreamsStand self.old begins ts dials
            → StreamsStand self.new begins (change_at_end ts (end_of life number) (with_sent m)) dials) }
        ensures streams_stay { OnErr result (self.new.list.items ≡ self.old.list.items) }
        ensures index_stays { OnErr result (self.new.near ≡ self.old.near) }
    {
        let Some((place, far)) = self.place_of(life, number) else {
            return Ok(());
        };
        let Some(stream) = self.list.get_mut(place) else {
            unreachable!()
        };
        stream.send(far, bytes)
    }
}

/// The streams as their ends change them.
impl Streams {
    /// The next so many bytes that the other side sent are delivered to this end, or all that are left.
    pub(crate) fn deliver(&mut self, life: u64, number: u64, count: u64)
        ensures { ChangesAt self.old self.new life number (with_delivered count) }
    {
        let Some((place, far)) = self.place_of(life, number) else {
            return;
        };
        let Some(stream) = self.list.get_mut(place) else {
            unreachable!()
        };
        stream.deliver(far, count);
    }

    /// This end is told that the stream is closed.
    pub(crate) fn tell_closed(&mut self, life: u64, number: u64)
        ensures { ChangesAt self.old self.new life number (with_side told_closed) }
    {
        let Some((place, far)) = self.place_of(life, number) else {
            return;
        };
        let Some(stream) = self.list.get_mut(place) else {
            unreachable!()
        };
        stream.tell_closed(far);
    }

    /// The stream of this number is opened in this life, whose node took it or turned it away.
    pub(crate) fn open(&mut self, k: u64, life: u64, taken: bool)
        ensures { Opens self.old self.new k life taken }
    {
        if k == 0 {
            return;
        }
        let Some(stream) = self.list.get_mut((k - 1) as usize) else {
            return;
        };
        stream.open(life, taken);
    }

    /// The life of this node ends, one of so many: its sides are told that their streams are closed, and so are the far sides of
    /// those that go to the node and weren't opened.
    pub(crate) fn end_life(&mut self, life: u64, node: u8, nodes: u8)
        ensures streams { self.new.list.items ≡ map (ended_at life node nodes) self.old.list.items }
        ensures index { self.new.near ≡ self.old.near }
    {
        for stream in self.list.iter_mut() {
            stream.end_life(life, node, nodes);
        }
    }
}

/// Nothing is sent yet.
fn no_sent(alloc: Global) -> Sent
    ensures { result ≡ no_sent }
{
    Sent {
        bytes: Octets::new(alloc),
        delivered: 0,
    }
}

/// How the far side stands where the dial was just sent.
fn first_standing(closed: bool) -> Standing
    ensures { result ≡ first_standing closed }
{
    if closed {
        Standing::ToldClosed
    } else {
        Standing::NotYet
    }
}

/// A stream whose dial was just sent.
fn first_stream(alloc: Global, life: u64, number: u64, to: Locator, closed: bool) -> Stream
    ensures { result ≡ first_stream life number to closed }
{
    Stream {
        near: life,
        number,
        to,
        far: None,
        near_side: Standing::Lives,
        far_side: first_standing(closed),
        from_near: no_sent(alloc),
        from_far: no_sent(alloc),
    }
}
