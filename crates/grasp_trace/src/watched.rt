//! The streams of a node that is watched.

ghost use Rattle.std.specs.Prelude.{◌≡◌, ℕ, Bool, true, false, None, IsSome};
ghost use Rattle.grasp_trace.specs.Lines.{most_bytes};
ghost use Rattle.grasp_trace.specs.Messages.{place_in};
ghost use Rattle.grasp_trace.specs.Watching.{wires_of, cutters_of, IsSomeNew, OthersStay, Changes};
ghost use Rattle.grasp_wire.specs.Cutter.{Past, after_feed};
ghost use Rattle.grasp_wire.specs.Stands.{Stands, cut_limit};

use grasp_wire::{CutFault, Cutter};
use indexmap::IndexMap;
use std::alloc::Global;

/// The greatest size of a message that a node may be configured for, in bytes.
pub(crate) const MOST_BYTES: u32 = 65535;

/// Both directions of a stream. A direction with a fault isn't watched any more.
#[derive(Drop)]
pub(crate) struct Wires {
    pub(crate) received: Option<Cutter>,
    pub(crate) sent: Option<Cutter>,
}

/// The streams that were dialled or opened and aren't closed yet, by their numbers.
#[derive(Drop)]
pub(crate) struct Watched {
    streams: IndexMap<u64, Wires>,
}

impl Watched {
    pub(crate) fn new(alloc: Global) -> Watched
        ensures { (received : Bool) (stream : ℕ) → cutters_of result received stream ≡ None }
    {
        Watched {
            streams: IndexMap::new(alloc),
        }
    }

    /// A stream begins. Returns whether there was memory to watch it.
    pub(crate) fn begin(&mut self, stream: u64) -> bool
        ensures new { result ≡ true → (received : Bool) → IsSomeNew most_bytes (cutters_of self.new received stream) }
        ensures none { result ≡ false → (received : Bool) → cutters_of self.new received stream ≡ None }
        ensures others { OthersStay stream (cutters_of self.old) (cutters_of self.new) }
    {
        let alloc = *self.streams.allocator();
        let wires = Wires {
            received: Some(Cutter::new(alloc, MOST_BYTES)),
            sent: Some(Cutter::new(alloc, MOST_BYTES)),
        };
        self.streams.insert(stream, wires).is_ok()
    }

    /// A stream ends.
    pub(crate) fn end(&mut self, stream: u64)
        ensures ends { (received : Bool) → cutters_of self.new received stream ≡ None }
        ensures others { OthersStay stream (cutters_of self.old) (cutters_of self.new) }
    {
        let _ended = self.streams.swap_remove(&stream);
    }

    /// Takes the cutter of a direction of a stream out, where it is watched.
    pub(crate) fn take(&mut self, stream: u64, received: bool) -> Option<Cutter>
        ensures cutter { result ≡ cutters_of self.old received stream }
        ensures then { Changes received stream None (cutters_of self.old) (cutters_of self.new) }
        ensures there { IsSome result → IsSome (wires_of self.new stream) }
    {
        match self.streams.get_mut(&stream) {
            Some(wires) => wires.take(received),
            None => None,
        }
    }

    /// Puts back what is left of the cutter of a direction.
    pub(crate) fn put(&mut self, stream: u64, received: bool, cutter: Option<Cutter>)
        ensures { IsSome (wires_of self.old stream) → Changes received stream cutter (cutters_of self.old) (cutters_of self.new) }
    {
        match self.streams.get_mut(&stream) {
            Some(wires) => wires.put(received, cutter),
            None => {}
        }
    }
}

impl Wires {
    /// Takes the cutter of a direction out, where it is watched.
    fn take(&mut self, received: bool) -> Option<Cutter>
        ensures received { received ≡ true → (result ≡ self.old.received) × (self.new.received ≡ None) × (self.new.sent ≡ self.old.sent) }
        ensures sent { received ≡ false → (result ≡ self.old.sent) × (self.new.sent ≡ None) × (self.new.received ≡ self.old.received) }
    {
        if received {
            self.received.take()
        } else {
            self.sent.take()
        }
    }

    /// Puts back what is left of the cutter of a direction.
    fn put(&mut self, received: bool, cutter: Option<Cutter>)
        ensures received { received ≡ true → (self.new.received ≡ cutter) × (self.new.sent ≡ self.old.sent) }
        ensures sent { received ≡ false → (self.new.sent ≡ cutter) × (self.new.received ≡ self.old.received) }
    {
        if received {
            self.received = cutter;
        } else {
            self.sent = cutter;
        }
    }
}

/// Puts a piece behind what came, and returns whether there was room for it.
pub(crate) fn feed(cutter: &mut Cutter, piece: &[u8]) -> bool
    ensures fed { (past : Past) → Stands cutter.old past → result ≡ true → Stands cutter.new (after_feed past piece.now) }
    ensures limit { cut_limit cutter.new ≡ cut_limit cutter.old }
{
    if cutter.fed() > u64::MAX - piece.len() as u64 {
        return false;
    }
    cutter.feed(piece).is_ok()
}

/// The place of a fault, where it has one.
pub(crate) fn place_of(fault: &CutFault) -> Option<u64>
    ensures { result ≡ place_in fault.now }
{
    match fault {
        CutFault::Malformed { at }
        | CutFault::NotText { at }
        | CutFault::TooDeep { at }
        | CutFault::TooLong { at }
        | CutFault::NotMessage { at } => Some(*at),
        CutFault::OutOfMemory => None,
    }
}
