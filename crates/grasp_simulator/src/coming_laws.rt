//! What comes to the nodes that cores stand for. It says nothing at run time.

ghost use Rattle.grasp_simulator.specs.Comings.{SomethingComesToCores};

/// Whatever is delivered to a node for which a core stands, something comes with it: so a step of the core has an outcome.
#[tactic(auto, using(crate::proofs::Comings::something_comes_to_cores))]
pub fn something_comes_to_cores()
    ensures { SomethingComesToCores }
{}
