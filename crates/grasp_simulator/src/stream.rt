//! A stream between two nodes, as the network keeps it from the sending of its dial on.

ghost use Rattle.std.specs.Prelude.{◌≡◌, ◌==◌, ◌&&◌, not, OnOk, OnErr};
ghost use Rattle.grasp_simulator.specs.StreamParts.{sent_from, more_sent, more_delivered, piece_of, stream_sent, stream_delivered, stream_told};
ghost use Rattle.grasp_simulator.specs.StreamParts.{stream_opened, far_number, side_end, ended_at, goes_to};

use crate::opening::listener;
use grasp_cbor::{Octets, OutOfMemory};
use grasp_types::Locator;

/// One direction: the bytes that were sent, and how many of them were delivered.
#[derive(Drop)]
pub(crate) struct Sent {
    pub(crate) bytes: Octets,
    pub(crate) delivered: usize,
}

/// How a side of a stream stands.
#[derive(Clone, Copy, Debug, PartialEq, Eq)]
pub(crate) enum Standing {
    /// The stream isn't opened there yet.
    NotYet,
    /// What comes is delivered to it.
    Lives,
    /// It didn't take the stream.
    TurnedAway,
    /// It was told that the stream is closed.
    ToldClosed,
}

/// An end of a stream: a life of a node, and the number that the stream has there.
#[derive(Clone, Copy, Debug, PartialEq, Eq, Hash)]
pub(crate) struct LifeEnd {
    pub(crate) life: u64,
    pub(crate) number: u64,
}

impl LifeEnd {
    /// Whether it is that of the stream with this number in this life.
    pub(crate) fn is_at(&self, life: u64, number: u64) -> bool
        ensures { result ≡ (self.now.life == life && self.now.number == number) }
    {
        self.life == life && self.number == number
    }
}

/// A stream whose dial is sent.
#[derive(Drop)]
pub(crate) struct Stream {
    /// The life that dialled.
    pub(crate) near: u64,
    /// The number that the stream has there.
    pub(crate) number: u64,
    /// Where it was dialled to.
    pub(crate) to: Locator,
    /// The life in which it was opened.
    pub(crate) far: Option<u64>,
    pub(crate) near_side: Standing,
    pub(crate) far_side: Standing,
    pub(crate) from_near: Sent,
    pub(crate) from_far: Sent,
}

impl Sent {
    /// These bytes follow. After an `Err` nothing has changed.
    fn add(&mut self, bytes: &[u8]) -> Result<(), OutOfMemory>
        ensures ok { OnOk result (self.new ≡ more_sent self.old bytes.now) }
        ensures err { OnErr result (self.new ≡ self.old) }
    {
        self.bytes.append(bytes)
    }

    /// The next so many bytes that aren't delivered yet, or all that are left.
    fn next(&self, count: u64) -> &[u8]
        ensures { result.now ≡ piece_of self.now count }
    {
        let bytes = self.bytes.bytes();
        let start = self.delivered.min(bytes.len());
        let left = &bytes[start..];
        if count < left.len() as u64 {
            &left[..count as usize]
        } else {
            left
        }
    }

    /// The next so many bytes, or all that are left, are delivered.
    fn deliver(&mut self, count: u64)
        ensures { self.new ≡ more_delivered self.old count }
    {
        let all = self.bytes.bytes().len();
        let piece = self.next(count).len();
        if self.delivered < all {
            self.delivered += piece;
        }
    }
}

/// The number of the stream of this number where it arrives.
pub(crate) fn far_number(k: u64) -> u64
    ensures { result ≡ far_number k }
{
    k.saturating_mul(2).saturating_sub(1)
}

impl Stream {
    /// What this side sent.
    fn sent(&self, far: bool) -> &Sent
        ensures { result.now ≡ sent_from self.now far }
    {
        if far { &self.from_far } else { &self.from_near }
    }

    /// The side of this stream, which has this number, where what comes is delivered to it.
    pub(crate) fn side(&self, k: u64, far: bool) -> Option<LifeEnd>
        ensures { result ≡ side_end self.now k far }
    {
        if far {
            if self.far_side == Standing::Lives {
                let life = self.far?;
                Some(LifeEnd {
                    life,
                    number: far_number(k),
                })
            } else {
                None
            }
        } else if self.near_side == Standing::Lives {
            Some(LifeEnd {
                life: self.near,
                number: self.number,
            })
        } else {
            None
        }
    }

    /// The next so many bytes that the other side sent and that aren't delivered yet, or all that are left.
    pub(crate) fn piece(&self, far: bool, count: u64) -> &[u8]
        ensures { result.now ≡ piece_of (sent_from self.now (not far)) count }
    {
        self.sent(!far).next(count)
    }

    /// The side sends these bytes. After an `Err` nothing has changed.
    pub(crate) fn send(&mut self, far: bool, bytes: &[u8]) -> Result<(), OutOfMemory>
        ensures ok { OnOk result (self.new ≡ stream_sent self.old far bytes.now) }
        ensures err { OnErr result (self.new ≡ self.old) }
    {
        if far {
            self.from_far.add(bytes)
        } else {
            self.from_near.add(bytes)
        }
    }

    /// The next so many bytes that the other side sent are delivered to this one, or all that are left.
    pub(crate) fn deliver(&mut self, far: bool, count: u64)
        ensures { self.new ≡ stream_delivered self.old far count }
    {
        if far {
            self.from_near.deliver(count);
        } else {
            self.from_far.deliver(count);
        }
    }

    /// The side is told that the stream is closed.
    pub(crate) fn tell_closed(&mut self, far: bool)
        ensures { self.new ≡ stream_told self.old far }
    {
        if far {
            self.far_side = Standing::ToldClosed;
        } else {
            self.near_side = Standing::ToldClosed;
        }
    }

    /// It is opened in this life, whose node took it or turned it away.
    pub(crate) fn open(&mut self, life: u64, taken: bool)
        ensures { self.new ≡ stream_opened self.old life taken }
    {
        self.far = Some(life);
        self.far_side = if taken {
            Standing::Lives
        } else {
            Standing::TurnedAway
        };
    }

    /// The life of this node ends, one of so many: a side of it is told that the stream is closed, and so is the far one where
    /// the stream goes to the node and wasn't opened.
    pub(crate) fn end_life(&mut self, life: u64, node: u8, nodes: u8)
        ensures { self.new ≡ ended_at life node nodes self.old }
    {
        if self.near == life {
            self.near_side = Standing::ToldClosed;
        }
        if self.far == Some(life) || self.waits_for(node, nodes) {
            self.far_side = Standing::ToldClosed;
        }
    }

    /// Whether the stream goes to this node, one of so many, and wasn't opened there.
    fn waits_for(&self, node: u8, nodes: u8) -> bool
        ensures { result ≡ goes_to node nodes self.now }
    {
        self.far_side == Standing::NotYet && listener(nodes, &self.to) == Some(node)
    }
}
