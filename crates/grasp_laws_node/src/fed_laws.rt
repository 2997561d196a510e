//! Laws of what comes on the streams of a node and waits there. They say nothing at run time.

ghost use Rattle.grasp_model_node.specs.Divided.{FedNodesAreKept, KeptIsBounded, SomethingAlwaysComes, ComingsAgree};

/// What came on an open stream divides into the messages that were heard and a rest that waits.
#[tactic(auto, using(crate::proofs::Divided::Nodes::fed_nodes_kept))]
pub fn fed_nodes_are_kept()
    ensures { FedNodesAreKept }
{}

/// What waits on all open streams is at most 64 times one less than a message may have.
#[tactic(auto, using(crate::proofs::Divided::Bounds::kept_is_bounded))]
pub fn kept_is_bounded()
    ensures { KeptIsBounded }
{}

/// Something comes with every input at every reading: so a step's premise is never empty.
#[tactic(auto, using(crate::proofs::Divided::Comes::something_always_comes))]
pub fn something_always_comes()
    ensures { SomethingAlwaysComes }
{}

/// Two comings of one input agree in all that a step reads of them.
#[tactic(auto, using(crate::proofs::Divided::Comes::comings_agree))]
pub fn comings_agree()
    ensures { ComingsAgree }
{}
