//! A buffer in front of a sink.
ghost use Rattle.std.specs.Prelude.{◌≡◌, ◌+◌, ◌≤◌, ℕ, List, [], ◌++◌, length, take, OnOk, OnErr};
ghost use Rattle.std.specs.Io.KnownBytes.{Appends};
ghost use Rattle.grasp_io.specs.Faults.{Rose};
ghost use Rattle.grasp_io.specs.Known.{AppendsFront, Passes};

use crate::{Failed, Sink, write_all};
use std::marker::Model;

const CAPACITY: usize = 4096;

/// Holds small pieces for a sink, and writes them in blocks. A contract sees the bytes that it
/// holds.
///
/// Every call is to be given the same sink, and the last call is to be `flush`.
#[derive(Drop)]
pub struct WriteBuffer {
    bytes: [u8; CAPACITY],
    len: usize,
}

impl Model for WriteBuffer {
    ghost Value = { List ℕ };

    ghost view = { λ buffer. take buffer.len buffer.bytes };

    ghost invariant = { λ buffer. buffer.len ≤ 4096 };
}

impl WriteBuffer {
    /// A buffer that holds nothing. It takes no memory beyond itself.
    pub fn new() -> Self
        ensures { result ≡ [] }
    {
        WriteBuffer {
            bytes: [0; CAPACITY],
            len: 0,
        }
    }

    /// Puts a piece behind what is held. Of the two together a front may be written, and the rest
    /// is held.
    ///
    /// After `Failed` the sink has taken a front of the two, and the buffer holds nothing.
    #[tactic(auto, using(crate::proofs::Streams::appends_then_front))]
    pub fn put<K: Sink>(&mut self, sink: &mut K, piece: &[u8]) -> Result<(), Failed>
        ensures passed { OnOk result (Passes (K.written sink.old) (K.written sink.new) self.new
            (self.old ++ piece.now)) }
        ensures front { AppendsFront (K.written sink.old) (K.written sink.new)
            (self.old ++ piece.now) }
        ensures emptied { OnErr result (self.new ≡ []) }
        ensures fault { OnErr result (Rose (K.faults sink.old) (K.faults sink.new)) }
        ensures never_falls { K.faults sink.old ≤ K.faults sink.new }
    {
        if piece.len() > CAPACITY - self.len {
            self.flush(sink)?;
            if piece.len() > CAPACITY {
                return write_all(sink, piece);
            }
        }
        self.hold(piece);
        Ok(())
    }

    /// Writes what the buffer holds. Afterwards it holds nothing.
    ///
    /// After `Failed` the sink has taken a front of what was held.
    pub fn flush<K: Sink>(&mut self, sink: &mut K) -> Result<(), Failed>
        ensures written { OnOk result (Appends (K.written sink.old) (K.written sink.new) self.old) }
        ensures front { AppendsFront (K.written sink.old) (K.written sink.new) self.old }
        ensures emptied { self.new ≡ [] }
        ensures fault { OnErr result (Rose (K.faults sink.old) (K.faults sink.new)) }
        ensures never_falls { K.faults sink.old ≤ K.faults sink.new }
    {
        let held = self.len;
        self.len = 0;
        write_all(sink, &self.bytes[..held])
    }

    // Puts a piece for which there is room behind what is held.
    fn hold(&mut self, piece: &[u8])
        requires { length self.old + length piece.now ≤ 4096 }
        ensures { self.new ≡ self.old ++ piece.now }
    {
        let end = self.len + piece.len();
        self.bytes[self.len..end].copy_from_slice(piece);
        self.len = end;
    }
}
