//! What steps of a node do to the sessions of such an agent. They say nothing at run time.

ghost use Rattle.grasp_laws_owned.specs.Laws.{BeginningsLeaveOwners, OthersLeaveOwners, OwnersKeepServing, OwnersLeaveByPolls};

use grasp_laws_node::poll_means;

/// Whatever comes to a node but a call of the agent leaves it serving, each session whose it may be, and the agent's own sessions
/// as they are but for what they hear.
pub fn others_leave_owners()
    ensures { OthersLeaveOwners }
{}

/// So does the beginning of a step, whoever is registered.
pub fn beginnings_leave_owners()
    ensures { BeginningsLeaveOwners }
{}

/// A call that the agent makes for its objective leaves it serving, and each session whose it may be.
pub fn owners_keep_serving()
    ensures { OwnersKeepServing }
{}

/// A session of the agent leaves only by the agent's own poll, which tells its outcome.
pub fn owners_leave_by_polls()
    ensures { OwnersLeaveByPolls }
{
    poll_means();
}
