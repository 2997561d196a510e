//! What holds of each event. It says nothing at run time.

ghost use Rattle.grasp_laws_network.specs.Laws.{NothingComesOfNothing, DrainsAreSteps, HeldThenDrained, WorldsBegin, LinksAreFound};
ghost use Rattle.grasp_laws_network.specs.Laws.{SendingKeepsNodes, ScriptNodesOpen, OthersStay};

/// An event that names a datagram, a stream or a side of one that isn't there changes nothing and reports nothing.
#[tactic(auto, unfolding(grasp_model_network::specs::Events::after_event, grasp_model_network::specs::Reports::report_of))]
pub fn nothing_comes_of_nothing()
    ensures { NothingComesOfNothing }
{}

/// A drain behind an event is a step of its node.
pub fn drains_are_steps()
    ensures { DrainsAreSteps }
{}

/// An event that isn't held does what the held one does, and then sends outputs of its node.
#[tactic(auto, unfolding(grasp_model_network::specs::Events::after_event))]
pub fn held_then_drained()
    ensures { HeldThenDrained }
{}

/// The answers to the opening calls of the agent in a life that begins come of steps at reading 0.
pub fn worlds_begin()
    ensures { WorldsBegin }
{}

/// The link of some number of a node is that node's link of this number.
pub fn links_are_found()
    ensures { LinksAreFound }
{}

/// What is sent changes no node.
pub fn sending_keeps_nodes()
    ensures { SendingKeepsNodes }
{}

/// Each node of a good plan of a script is one that can be opened.
pub fn script_nodes_open()
    ensures { ScriptNodesOpen }
{}

/// An event changes no node but the one that makes its step.
pub fn others_stay()
    ensures { OthersStay }
{}
