//! Why a text is no script, or wasn't read.

use grasp_cbor::OutOfMemory;
use std::alloc::AllocError;

/// Why a text is no script, or wasn't read.
#[derive(Clone, Copy, Debug, PartialEq, Eq)]
pub enum ScriptFault {
    /// The text is no script. The number, from 1, of the first line with which, after the lines before it,
    /// no script begins, or the number after the last line where a line of the header is missing.
    BadScript { line: u64 },
    /// There was no memory.
    OutOfMemory,
}

impl From<OutOfMemory> for ScriptFault {
    ghost use Rattle.std.specs.Prelude.{◌≡◌};
    ghost use Rattle.grasp_script.specs.declared.fault.ScriptFault.TheVariants as faults;

    ghost from_gives = { λ _ e. e ≡ faults.OutOfMemory };

    fn from(_: OutOfMemory) -> ScriptFault {
        ScriptFault::OutOfMemory
    }
}

impl From<AllocError> for ScriptFault {
    ghost use Rattle.std.specs.Prelude.{◌≡◌};
    ghost use Rattle.grasp_script.specs.declared.fault.ScriptFault.TheVariants as faults;

    ghost from_gives = { λ _ e. e ≡ faults.OutOfMemory };

    fn from(_: AllocError) -> ScriptFault {
        ScriptFault::OutOfMemory
    }
}
