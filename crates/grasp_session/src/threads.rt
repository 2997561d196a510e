//! What may go to another thread.

ghost use denote.Param.Send.{IsSend};
ghost use Rattle.grasp_session.specs.contracts.table.Table.{the_row};

use crate::Table;

/// Values of this type may go to another thread: the bound says so.
fn may_go<T: Send>()
    ensures { IsSend T.row }
{}

/// A table may go to another thread.
pub fn table_may_cross()
    ensures { IsSend the_row }
{
    may_go::<Table>();
}
