//! Laws on what a running node does.

ghost use Rattle.grasp_node_main.specs.Exits.{StatusesAreTold};
ghost use Rattle.grasp_node_main.specs.Lines.{WantEndsAreTold};
ghost use Rattle.grasp_node_main.specs.Networks.{NodesOpenAsSeats};

/// A node that has had its opening calls stands, with its agent of prefixes, as a life in a network begins.
pub fn nodes_open_as_seats()
    ensures { NodesOpenAsSeats }
{}

/// Each status is told by its own line. It is told by its own number too, but for which key of a configuration is bad.
pub fn statuses_are_told()
    ensures { StatusesAreTold }
{}

/// Each way in which a want ends, and that it hasn't ended, is told by a line of its own.
pub fn want_ends_are_told()
    ensures { WantEndsAreTold }
{}
