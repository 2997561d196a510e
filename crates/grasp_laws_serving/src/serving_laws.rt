//! Laws of nodes that serve as members of a network. They say nothing at run time.

ghost use Rattle.grasp_laws_serving.specs.Going.{ServedCoursesGoOn};
ghost use Rattle.grasp_laws_serving.specs.Histories.{HistoriesHappened, ServicesHaveActs};
ghost use Rattle.grasp_laws_serving.specs.Holding.{ServingNodesHoldApart};
ghost use Rattle.grasp_laws_serving.specs.Laws.{ServingNodesAreSafe};

use grasp_laws_members::members_take_turns;
use grasp_laws_running::members_may_call;
use grasp_model_script::each_network_is_safe;
use grasp_node_main::nodes_open_as_seats;

/// The history of a node that served is the opening calls of its agent of prefixes, and then the calls of what happened, all of them and in order.
#[tactic(auto, using(crate::proofs::Lives::histories_happened))]
pub fn histories_happened()
    ensures { HistoriesHappened }
{}

/// Whatever happened first at a node that served, as long as there was memory for each call, is acts of a member of its plan and roots.
pub fn services_have_acts()
    ensures { ServicesHaveActs }
{
    nodes_open_as_seats();
}

/// Where nodes that serve are members of a network, and are given what it can give them, the network keeps the promise at every moment, and each
/// node stands in it as it serves. All that they call and want is fit for it.
pub fn serving_nodes_are_safe()
    ensures { ServingNodesAreSafe }
{
    members_take_turns();
    each_network_is_safe();
    nodes_open_as_seats();
}

/// In every network that turns lead to, each member that serves can make the next call of its agent of prefixes: a course can go on.
pub fn served_courses_go_on()
    ensures { ServedCoursesGoOn }
{
    members_may_call();
}

/// Nodes that have served to their ends in one network hold no address together.
pub fn serving_nodes_hold_apart()
    ensures { ServingNodesHoldApart }
{
    nodes_open_as_seats();
    serving_nodes_are_safe();
}
