//! Laws of what the disks of a network don't forget. They say nothing at run time.

ghost use Rattle.grasp_laws_forgetting.specs.Accepted.{AcceptedAreKept};
ghost use Rattle.grasp_laws_forgetting.specs.Forgetting.{NothingIsForgotten};

/// Before an agent's call that accepts a prefix, the image of its pool with that prefix in doubt is on its node's disk.
pub fn accepted_are_kept()
    ensures { AcceptedAreKept }
{}

/// At each crash, whatever the calls that the disk made and whatever is left of them, each address that the agent's pool has is of a
/// prefix of the image with which the node begins anew.
pub fn nothing_is_forgotten()
    ensures { NothingIsForgotten }
{}
