//! Laws of nodes that serve and begin anew as members of a network. They say nothing at run time.

ghost use Rattle.grasp_laws_served_lives.specs.Laws.{ServedLivesAreSafe};
ghost use Rattle.grasp_laws_served_lives.specs.Lives.{ServedLivesHaveActs, StoresAreAsked};

use grasp_laws_lives::kept_lives_are_safe;
use grasp_node_main::nodes_open_as_seats;

/// Whatever happened first at a node that served, as long as there was memory for each call, is acts in a life that begins with the node's pool.
pub fn served_lives_have_acts()
    ensures { ServedLivesHaveActs }
{
    nodes_open_as_seats();
}

/// The store of a node that served was asked exactly what is asked around what happened in the node's life.
pub fn stores_are_asked()
    ensures { StoresAreAsked }
{
    nodes_open_as_seats();
}

/// Where nodes that serve are members of a network, begin anew with what a crash may have left of their stores, and are given what the network can give
/// them, the network keeps the promise at every moment, over all lives, and each node stands in it as it does after its lives.
pub fn served_lives_are_safe()
    ensures { ServedLivesAreSafe }
{
    kept_lives_are_safe();
    nodes_open_as_seats();
}
