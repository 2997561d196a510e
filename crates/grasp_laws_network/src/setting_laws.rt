//! What holds of the settings of networks. They say nothing at run time.

ghost use Rattle.grasp_laws_network.specs.Laws.{ScriptsAreGood, ScriptPoolsOpen, RoutesReturn};

/// A good plan of a script has a good setting: its members can be opened and differ, and their links are those of the plan.
pub fn scripts_are_good()
    ensures { ScriptsAreGood }
{}

/// An answer goes back along the way on which a datagram came.
pub fn routes_return()
    ensures { RoutesReturn }
{}

/// The roots of each node of a good plan open a pool.
pub fn script_pools_open()
    ensures { ScriptPoolsOpen }
{}
