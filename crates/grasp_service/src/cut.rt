//! Why a round is cut short.

use grasp_cbor::OutOfMemory;
use grasp_store::KeepFault;

/// Why a round is cut short.
#[derive(Clone, Copy, Debug, PartialEq, Eq)]
pub enum Cut {
    /// There was no memory.
    OutOfMemory,
    /// The store has a fault.
    Store { fault: KeepFault },
}

impl From<OutOfMemory> for Cut {
    ghost use Rattle.std.specs.Prelude.{◌≡◌};
    ghost use Rattle.grasp_service.specs.declared.cut.Cut.TheVariants as cuts;

    ghost from_gives = { λ _ cut. cut ≡ cuts.OutOfMemory };

    fn from(_: OutOfMemory) -> Cut {
        Cut::OutOfMemory
    }
}

impl From<KeepFault> for Cut {
    ghost use Rattle.std.specs.Prelude.{◌≡◌};
    ghost use Rattle.grasp_service.specs.declared.cut.Cut.TheVariants as cuts;

    ghost from_gives = { λ fault cut. cut ≡ cuts.Store fault };

    fn from(fault: KeepFault) -> Cut {
        Cut::Store { fault }
    }
}
