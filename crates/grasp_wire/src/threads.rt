//! What may go to another thread, and be shared by threads.

ghost use denote.Param.Send.{IsSend, IsSync};
ghost use Rattle.grasp_wire.specs.contracts.cutter.Cutter.{the_row};

use crate::Cutter;
use grasp_cbor::may_cross;

/// A cutter may go to another thread, and threads may share one.
pub fn cutters_may_cross()
    ensures sends { IsSend the_row }
    ensures shares { IsSync the_row }
{
    may_cross::<Cutter>();
}
