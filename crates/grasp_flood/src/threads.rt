//! What may go to another thread, and be shared by threads.

ghost use denote.Param.Send.{IsSend, IsSync};
ghost use Rattle.grasp_flood.specs.contracts.cache.FloodCache.{the_row};

use crate::FloodCache;
use grasp_cbor::may_cross;

/// A cache of floods may go to another thread, and threads may share one.
pub fn floods_may_cross()
    ensures sends { IsSend the_row }
    ensures shares { IsSync the_row }
{
    may_cross::<FloodCache>();
}
