//! How a piece of a stream is fed to its cutter, and the messages that it adds are heard.

ghost use Rattle.std.specs.Prelude.{◌≡◌, ◌+◌, ◌≤◌, ◌<◌, ◌↔◌, None, length, IsTrue};
ghost use Rattle.grasp_model_node.specs.Bytes.{most_bytes};
ghost use Rattle.grasp_core.specs.Feeding.{Feeding, Hears, Ended, HasHeard, AfterNext, Feeds, IsLeft};
ghost use Rattle.grasp_wire.specs.Stands.{fed_count, waiting_count};

use crate::NodeCore;
use grasp_wire::{CutFault, Cutter};

/// How many bytes come on a stream at most.
const MOST_BYTES: u64 = 4_294_967_295;

/// How a stream stands after its messages were heard.
pub(crate) enum Ending {
    /// It is open.
    Open,
    /// It is closing.
    Shut,
    /// Memory was wanted.
    Starved,
}

/// How a piece leaves its stream.
#[derive(Drop)]
pub(crate) enum Left {
    /// It is open, and has this cutter.
    Open(Cutter),
    /// It is closing.
    Shut,
    /// It would have too many bytes.
    TooLong,
    /// Memory was wanted.
    Starved,
}

impl NodeCore {
    /// Feeds a piece, and hears the messages that it adds.
    pub(crate) fn feed(&mut self, mut cutter: Cutter, stream: u64, piece: &[u8]) -> Left
        ensures { (f : Feeding) → Feeds self.old cutter piece.now f → IsLeft stream piece.now f self.new result }
    {
        if !has_room(&cutter, piece) {
            return Left::TooLong;
        }
        match cutter.feed(piece) {
            Ok(()) => match self.hear_all(&mut cutter, stream) {
                Ending::Open => Left::Open(cutter),
                Ending::Shut => Left::Shut,
                Ending::Starved => Left::Starved,
            },
            Err(_) => Left::Starved,
        }
    }

    /// Hears the messages that the cutter holds.
    fn hear_all(&mut self, cutter: &mut Cutter, stream: u64) -> Ending
        ensures { (f : Feeding) → Hears self.old cutter.old f → Ended stream f self.new cutter.new result }
    {
        loop {
            if let Some(ending) = self.hear_next(cutter, stream) {
                return ending;
            }
        }
    }

    /// Hears the next message, or answers how the stream stands where there is none, or after it.
    fn hear_next(&mut self, cutter: &mut Cutter, stream: u64) -> Option<Ending>
        ensures then { (f : Feeding) → HasHeard stream f self.old cutter.old → AfterNext stream f self.new cutter.new result }
        ensures less { result ≡ None → waiting_count cutter.new < waiting_count cutter.old }
    {
        match cutter.next() {
            Ok(Some(message)) => match self.hear(stream, message) {
                Ok(true) => None,
                Ok(false) => Some(Ending::Shut),
                Err(_) => Some(Ending::Starved),
            },
            Ok(None) => Some(Ending::Open),
            Err(fault) => match fault {
                CutFault::OutOfMemory => Some(Ending::Starved),
                _ => match self.refuse(stream) {
                    Ok(()) => Some(Ending::Shut),
                    Err(_) => Some(Ending::Starved),
                },
            },
        }
    }
}

/// Whether the stream has room for the piece.
fn has_room(cutter: &Cutter, piece: &[u8]) -> bool
    ensures { IsTrue result ↔ (fed_count cutter.now + length piece.now ≤ most_bytes) }
{
    let len = piece.len() as u64;
    len <= MOST_BYTES && cutter.fed() <= MOST_BYTES - len
}
