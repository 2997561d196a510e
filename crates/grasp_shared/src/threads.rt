//! What may go to another thread, and what threads may share.

ghost use denote.Param.Send.{IsSend, IsSync};
ghost use Rattle.grasp_shared.specs.contracts.shared.Pass as pass;
ghost use Rattle.grasp_shared.specs.contracts.shared.Root as root;
ghost use Rattle.grasp_shared.specs.contracts.shared.Shared as shared;

use crate::{Pass, Root, Shared};

/// Values of this type may go to another thread: the bound says so.
fn may_go<T: Send>()
    ensures { IsSend T.row }
{}

/// Threads may share a value of this type: the bound says so.
fn may_be_shared<T: Sync>()
    ensures { IsSync T.row }
{}

/// A pass and a root may go to another thread, and threads may share a registry.
pub fn passes_may_cross()
    ensures passes { IsSend pass.the_row }
    ensures roots { IsSend root.the_row }
    ensures shares { IsSync shared.the_row }
{
    may_go::<Pass>();
    may_go::<Root>();
    may_be_shared::<Shared>();
}
