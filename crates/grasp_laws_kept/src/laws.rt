//! Laws of networks whose nodes crash. They say nothing at run time.

ghost use Rattle.grasp_laws_kept.specs.Listed.{KeptNetworksAreListed};
ghost use Rattle.grasp_laws_kept.specs.Laws.{KeptNetworksAreSafe, KeptRunsAreTurns, KeptStatesStand};

use grasp_model_script::each_network_is_safe;

/// A network whose nodes crash and begin anew with what is left on their disks takes turns: at each crash, whatever the calls that
/// the disk made and whatever is left of them, the node may begin anew with what its disk has then.
pub fn kept_runs_are_turns()
    ensures { KeptRunsAreTurns }
{}

/// After each event the disk of each node has the image of its pool: it is current, or nothing was saved and the pool is that of
/// the roots.
pub fn disks_have_their_images()
    ensures { KeptStatesStand }
{}

/// The states and the networks of a run are all those on its way, and the networks have those at each crash.
#[tactic(auto, using(crate::proofs::Listed::kept_networks_are_listed))]
pub fn kept_networks_are_listed()
    ensures { KeptNetworksAreListed }
{}

/// In each network of such a run negotiations are safe, floods that were read are real, and prefixes of different nodes don't
/// overlap, over all restarts.
pub fn kept_networks_are_safe()
    ensures { KeptNetworksAreSafe }
{
    each_network_is_safe();
}
