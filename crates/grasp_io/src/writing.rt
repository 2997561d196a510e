//! What takes bytes, and writing a whole slice to it.
ghost use Rattle.std.specs.Prelude.{◌≡◌, ◌<◌, ◌≤◌, List, ℕ, Option, length, take, IfOk, OnOk, OnErr};
ghost use Rattle.std.specs.Io.KnownBytes.{Appends, Keeps};
ghost use Rattle.grasp_io.specs.Faults.{Rose};
ghost use Rattle.grasp_io.specs.Known.{AppendsFront};

use crate::Failed;

/// Takes bytes, each after those before it.
pub trait Sink {
    /// The bytes that were written so far, where they are told.
    ghost written: { Self → Option (List ℕ) };

    /// How often a write has failed, or taken nothing of a piece that isn't empty. It never falls.
    ghost faults: { Self → ℕ };

    /// Takes bytes from the front of `piece`, and returns how many. After `Failed` none was taken,
    /// and a later call may succeed. To take nothing of a piece that isn't empty is a fault too.
    fn write(&mut self, piece: &[u8]) -> Result<usize, Failed>
        ensures count { IfOk result (λ n. n ≤ length piece.now) }
        ensures bytes { IfOk result (λ n. Appends (written self.old) (written self.new)
            (take n piece.now)) }
        ensures nothing { IfOk result (λ n. n ≡ 0 → 0 < length piece.now →
            Rose (faults self.old) (faults self.new)) }
        ensures unchanged { OnErr result (Keeps (written self.old) (written self.new)) }
        ensures fault { OnErr result (Rose (faults self.old) (faults self.new)) }
        ensures never_falls { faults self.old ≤ faults self.new };
}

/// Writes all the bytes, in as many calls as the sink wants.
///
/// After `Failed` the sink has taken a front of them. A sink that takes nothing is given up.
pub fn write_all<K: Sink>(sink: &mut K, bytes: &[u8]) -> Result<(), Failed>
    ensures written { OnOk result (Appends (K.written sink.old) (K.written sink.new) bytes.now) }
    ensures front { AppendsFront (K.written sink.old) (K.written sink.new) bytes.now }
    ensures fault { OnErr result (Rose (K.faults sink.old) (K.faults sink.new)) }
    ensures never_falls { K.faults sink.old ≤ K.faults sink.new }
{
    let mut rest = bytes;
    while !rest.is_empty() {
        let taken = sink.write(rest)?;
        if taken == 0 {
            return Err(Failed);
        }
        rest = &rest[taken..];
    }
    Ok(())
}
