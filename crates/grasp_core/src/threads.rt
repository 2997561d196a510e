//! What may go to another thread.

ghost use denote.Param.Send.{IsSend};
ghost use Rattle.grasp_core.specs.contracts.node_core.NodeCore as node;

use crate::NodeCore;

/// Values of this type may go to another thread: the bound says so.
fn may_go<T: Send>()
    ensures { IsSend T.row }
{}

/// A node may go to another thread.
pub fn node_may_cross()
    ensures node { IsSend node.the_row }
{
    may_go::<NodeCore>();
}
