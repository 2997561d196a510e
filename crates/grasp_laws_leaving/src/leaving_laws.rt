//! Laws of what ends at a node where an agent stops. They say nothing at run time.

ghost use Rattle.grasp_laws_leaving.specs.Ends.{LeavingEndsItsOwn};
ghost use Rattle.grasp_laws_leaving.specs.InTurn.{DeclinesAreInTurn};

use grasp_laws_node::deregister_asa_means;

/// Where an objective isn't listened for any more, or it or its agent leaves, each request that no agent has taken is declined,
/// while there is room: the objectives in the order of their registration, and the sessions of each by rising number.
pub fn declines_are_in_turn()
    ensures { DeclinesAreInTurn }
{}

/// Where an agent leaves, its sessions and the untaken requests for its objectives are live no more, and their streams begin
/// closing. Every other session and every other stream is as it was.
pub fn leaving_ends_its_own()
    ensures { LeavingEndsItsOwn }
{
    deregister_asa_means();
}
