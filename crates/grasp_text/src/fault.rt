//! Why text isn't read.

use grasp_cbor::OutOfMemory;
use std::alloc::{AllocError, AllocFailed};

/// Why a line is no message's, or wasn't read.
#[derive(Clone, Copy, Debug, PartialEq, Eq)]
pub enum TextFault {
    /// No message has the line. The place of the first word with which, after the words before it,
    /// no message's line begins, or the line's length where a word is missing.
    BadText { at: u64 },
    /// There was no memory.
    OutOfMemory,
}

/// Why a word of a line doesn't fit, or wasn't read.
#[derive(Clone, Copy, Debug, PartialEq, Eq)]
pub enum WordFault {
    /// The word doesn't fit, or it is missing. How many bytes the line has from that word on, 0 where
    /// it is missing.
    Unfit { left: u64 },
    /// There was no memory.
    OutOfMemory,
}

impl From<OutOfMemory> for WordFault {
    ghost use Rattle.std.specs.Prelude.{◌≡◌};
    ghost use Rattle.grasp_text.specs.declared.fault.WordFault.TheVariants as faults;

    ghost from_gives = { λ _ e. e ≡ faults.OutOfMemory };

    fn from(_: OutOfMemory) -> WordFault {
        WordFault::OutOfMemory
    }
}

impl From<AllocError> for WordFault {
    ghost use Rattle.std.specs.Prelude.{◌≡◌};
    ghost use Rattle.grasp_text.specs.declared.fault.WordFault.TheVariants as faults;

    ghost from_gives = { λ _ e. e ≡ faults.OutOfMemory };

    fn from(_: AllocError) -> WordFault {
        WordFault::OutOfMemory
    }
}

impl<T: Drop> From<AllocFailed<T>> for WordFault {
    ghost use Rattle.std.specs.Prelude.{◌≡◌};
    ghost use Rattle.grasp_text.specs.declared.fault.WordFault.TheVariants as faults;

    ghost from_gives = { λ _ e. e ≡ faults.OutOfMemory };

    fn from(_: AllocFailed<T>) -> WordFault {
        WordFault::OutOfMemory
    }
}
