//! Why a task ended before all of its output was written.
use grasp_cbor::OutOfMemory;
use grasp_io::Failed;
use std::alloc::AllocError;

/// Why a task's output wasn't written whole.
#[derive(Clone, Copy, Debug, PartialEq, Eq)]
pub enum Unfinished {
    /// The script has more than 200,000 lines. Nothing was written.
    TooLarge,
    /// The input is no script: the number of the line that is bad, counted from 1. Nothing was written.
    BadScript { line: u64 },
    /// The run of the script sends more than may be sent, and what it reports before that was written. Or the record of a run does so,
    /// and nothing was written.
    TooMuch,
    /// There was no memory.
    OutOfMemory,
    /// A write failed.
    WriteFault,
}

impl From<OutOfMemory> for Unfinished {
    ghost use Rattle.std.specs.Prelude.{◌≡◌};
    ghost use Rattle.grasp_replay_main.specs.declared.unfinished.Unfinished.TheVariants as unfinished;

    ghost from_gives = { λ _ e. e ≡ unfinished.OutOfMemory };

    fn from(_: OutOfMemory) -> Unfinished {
        Unfinished::OutOfMemory
    }
}

impl From<AllocError> for Unfinished {
    ghost use Rattle.std.specs.Prelude.{◌≡◌};
    ghost use Rattle.grasp_replay_main.specs.declared.unfinished.Unfinished.TheVariants as unfinished;

    ghost from_gives = { λ _ e. e ≡ unfinished.OutOfMemory };

    fn from(_: AllocError) -> Unfinished {
        Unfinished::OutOfMemory
    }
}

impl From<Failed> for Unfinished {
    ghost use Rattle.std.specs.Prelude.{◌≡◌};
    ghost use Rattle.grasp_replay_main.specs.declared.unfinished.Unfinished.TheVariants as unfinished;

    ghost from_gives = { λ _ e. e ≡ unfinished.WriteFault };

    fn from(_: Failed) -> Unfinished {
        Unfinished::WriteFault
    }
}
