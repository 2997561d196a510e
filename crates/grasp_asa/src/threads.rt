//! What may go to another thread, and be shared by threads.

ghost use denote.Param.Send.{IsSend, IsSync};
ghost use Rattle.grasp_asa.specs.contracts.registry.Registry.{the_row};

use crate::Registry;
use grasp_cbor::may_cross;

/// A registry may go to another thread, and threads may share one.
pub fn registry_may_cross()
    ensures sends { IsSend the_row }
    ensures shares { IsSync the_row }
{
    may_cross::<Registry>();
}
