//! What may go to another thread, and be shared by threads.

ghost use denote.Param.Send.{IsSend, IsSync};
ghost use Rattle.grasp_discovery.specs.contracts.discovery.Discovery.{the_row};

use crate::Discovery;
use grasp_cbor::may_cross;

/// A node's discoveries may go to another thread, and threads may share one.
pub fn discoveries_may_cross()
    ensures sends { IsSend the_row }
    ensures shares { IsSync the_row }
{
    may_cross::<Discovery>();
}
