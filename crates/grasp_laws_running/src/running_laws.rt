//! Laws of nodes that run as members of a network. They say nothing at run time.

ghost use Rattle.grasp_laws_running.specs.Going.{MembersMayCall};
ghost use Rattle.grasp_laws_running.specs.Laws.{RunningNodesAreSafe, RunningNodesHoldApart, RunsHaveActs};
ghost use Rattle.grasp_laws_running.specs.Others.{OthersCallAsOthers};

use grasp_laws_members::members_take_turns;
use grasp_laws_outcomes::events_come_out;
use grasp_model_script::each_network_is_safe;
use grasp_node_main::nodes_open_as_seats;

/// However many of the first entries of a node's run had memory, they are what happened at the node and its agent of prefixes.
pub fn runs_have_acts()
    ensures { RunsHaveActs }
{}

/// Where nodes that run are members of a network, and are given what it can give them, the network keeps the promise at every moment, and each
/// node stands in it as it runs.
pub fn running_nodes_are_safe()
    ensures { RunningNodesAreSafe }
{
    members_take_turns();
    each_network_is_safe();
    nodes_open_as_seats();
}

/// Each call of an agent of a node that ran, but those of its agent of prefixes, is one that another agent may make: not as agent 1, and within its
/// ranges, where what its beacons announce is.
pub fn others_call_as_others()
    ensures { OthersCallAsOthers }
{
    nodes_open_as_seats();
}

/// In every network that turns lead to, each member that runs can make the next call of its agent of prefixes: a course can go on.
pub fn members_may_call()
    ensures { MembersMayCall }
{
    events_come_out();
}

/// Nodes that have run to their ends in one network hold no address together.
pub fn running_nodes_hold_apart()
    ensures { RunningNodesHoldApart }
{
    nodes_open_as_seats();
    running_nodes_are_safe();
}
