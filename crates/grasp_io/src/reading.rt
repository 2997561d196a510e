//! What gives bytes, and reading it to its end.
ghost use Rattle.std.specs.Prelude.{◌≡◌, ◌<◌, ◌≤◌, List, [], ℕ, Option, Some, length, take, vec_len, IfOk, OnErr, IfSome, IsErrOf};
ghost use Rattle.std.specs.Io.KnownBytes.{Consumes, Keeps};
ghost use Rattle.grasp_io.specs.Faults.{Rose};
ghost use Rattle.grasp_io.specs.Known.{EndsExactly, IsEndOf};
ghost use Rattle.grasp_io.specs.declared.reading.ReadError.TheVariants.{Fault, OutOfMemory};

use crate::Failed;
use std::alloc::{AllocError, Global};

/// Gives bytes, from its front to its end.
pub trait Source {
    /// The bytes that reads will give from here on, where they are told.
    ghost left: { Self → Option (List ℕ) };

    /// How often a read has failed. It never falls.
    ghost faults: { Self → ℕ };

    /// Puts the next bytes at the front of `into`, and returns how many. For a slice that isn't
    /// empty 0 is the end of the input. After `Failed` nothing was taken, and a later call may
    /// succeed.
    fn read(&mut self, into: &mut [u8]) -> Result<usize, Failed>
        ensures count { IfOk result (λ n. n ≤ length into.new) }
        ensures bytes { IfOk result (λ n. Consumes (left self.old) (left self.new) (take n into.new)) }
        ensures end { IfOk result (λ n. 0 < length into.new → EndsExactly (left self.old) n) }
        ensures unchanged { OnErr result (Keeps (left self.old) (left self.new)) }
        ensures fault { OnErr result (Rose (faults self.old) (faults self.new)) }
        ensures never_falls { faults self.old ≤ faults self.new };
}

/// Why a source wasn't read to its end.
#[derive(Clone, Copy, Debug, PartialEq, Eq)]
pub enum ReadError {
    /// A read failed.
    Fault,
    /// A byte past the limit was read.
    TooLarge,
    /// The content didn't fit into memory.
    OutOfMemory,
}

impl From<Failed> for ReadError {
    ghost from_gives = { λ _ e. e ≡ Fault };

    fn from(_: Failed) -> Self {
        ReadError::Fault
    }
}

impl From<AllocError> for ReadError {
    ghost from_gives = { λ _ e. e ≡ OutOfMemory };

    fn from(_: AllocError) -> Self {
        ReadError::OutOfMemory
    }
}

const BLOCK: usize = 4096;

/// Reads the source to its end. The content may have up to `limit` bytes.
///
/// `TooLarge` comes as soon as the first byte past the limit is read. After an error some bytes may
/// be gone from the source: what is left is an end of what was left.
pub fn read_all<S: Source>(alloc: Global, source: &mut S, limit: u64) -> Result<Vec<u8>, ReadError>
    ensures content { IfOk result (λ bytes. IfSome (S.left source.old) (λ all. bytes.items ≡ all)) }
    ensures end { IfOk result (λ _. IfSome (S.left source.old) (λ _. S.left source.new ≡ Some [])) }
    ensures within { IfOk result (λ bytes. vec_len bytes ≤ limit) }
    ensures too_large { IsErrOf result ReadError.TooLarge →
        IfSome (S.left source.old) (λ all. limit < length all) }
    ensures fault { IsErrOf result ReadError.Fault →
        Rose (S.faults source.old) (S.faults source.new) }
    ensures never_falls { S.faults source.old ≤ S.faults source.new }
    ensures rest { IsEndOf (S.left source.old) (S.left source.new) }
{
    let mut content = Vec::new(alloc);
    let mut block = [0; BLOCK];
    loop {
        let taken = source.read(&mut block)?;
        if taken == 0 {
            return Ok(content);
        }
        if limit - (content.len() as u64) < taken as u64 {
            return Err(ReadError::TooLarge);
        }
        content.extend_from_slice(&block[..taken])?;
    }
}
