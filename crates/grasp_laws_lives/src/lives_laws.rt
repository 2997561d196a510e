//! Laws of nodes that run and begin anew as members of a network. They say nothing at run time.

ghost use Rattle.grasp_laws_lives.specs.Laws.{KeptLivesAreSafe, LivesTakeTurns};
ghost use Rattle.grasp_laws_lives.specs.Stores.{FirstDisksAreThere, FirstDisksOpenRoots, LivesCanEnd, LivesEndAnywhere};

use grasp_disk::read_bytes_may_stand;
use grasp_laws_members::members_take_turns;
use grasp_model_script::each_network_is_safe;

/// Where members run in one life after the other, each of which begins by an image by which the one before may be opened anew, and are given what the
/// network can give them, turns lead to each network on the way, and in the last one each of these members stands as it does after its lives.
pub fn lives_take_turns()
    ensures { LivesTakeTurns }
{
    members_take_turns();
}

/// Where each life begins by the image that a crash may have left on the disk of the one before, or with the member's roots, all lives together are turns
/// of one network: it keeps the promise at every moment, and each member stands in it as it does after its lives.
pub fn kept_lives_are_safe()
    ensures { KeptLivesAreSafe }
{
    members_take_turns();
    each_network_is_safe();
}

/// A node whose disk has the image of its roots opens the pool of these roots: so its first life may begin with its disk.
pub fn first_disks_open_roots()
    ensures { FirstDisksOpenRoots }
{}

/// Whatever happened in a life, a crash may leave what a read of its disk gives then: a life can end anywhere, and another begin.
pub fn lives_can_end()
    ensures { LivesCanEnd }
{
    read_bytes_may_stand();
}

/// A crash at any moment while a disk is asked, ahead of a call of the agent or behind it, is the end of a life.
#[tactic(auto, using(crate::proofs::Disks::lives_end_anywhere))]
pub fn lives_end_anywhere()
    ensures { LivesEndAnywhere }
{}

/// Some disk has the image of a node's roots, so that a first life can begin with it.
#[tactic(auto, using(crate::proofs::Disks::first_disks_are_there))]
pub fn first_disks_are_there()
    ensures { FirstDisksAreThere }
{}
