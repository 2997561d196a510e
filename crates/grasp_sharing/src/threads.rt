//! A node, and its table of sessions, which threads may share.

ghost use denote.Param.Send.{IsSync};
ghost use Rattle.grasp_core.specs.contracts.node_core.NodeCore as node;
ghost use Rattle.grasp_session.specs.contracts.table.Table as table;

use grasp_cbor::items_may_cross;
use grasp_core::NodeCore;
use grasp_session::Table;

/// Threads may share a value of this type: the bound says so.
fn may_be_shared<T: Sync>()
    ensures { IsSync T.row }
{}

/// Threads may share a node, and a table of sessions.
pub fn nodes_may_be_shared()
    ensures nodes { IsSync node.the_row }
    ensures tables { IsSync table.the_row }
{
    items_may_cross();
    may_be_shared::<NodeCore>();
    may_be_shared::<Table>();
}
