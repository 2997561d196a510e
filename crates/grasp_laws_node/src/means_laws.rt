//! What the answers of agents' calls mean. They say nothing at run time.

ghost use Rattle.grasp_laws_node.specs.Means.{StepMeans, WaitMeans, EndMeans, InvalidMeans, PollMeans, ListenMeans};
ghost use Rattle.grasp_laws_node.specs.MeansRequests.{RequestMeans, SynchronizeMeans};
ghost use Rattle.grasp_laws_node.specs.MeansSearches.{DiscoverMeans, FloodMeans, GetMeans, ExpireMeans};
ghost use Rattle.grasp_laws_node.specs.MeansRegistry.{RegisterAsaMeans, RegisterObjectiveMeans, OfferMeans, StopOfferMeans, StopMeans};
ghost use Rattle.grasp_laws_node.specs.MeansRegistry.{DeregisterObjectiveMeans, DeregisterAsaMeans};

/// A step was the agent's turn in a session of its own, and is queued with the last loop count less one.
#[tactic(auto, using(crate::proofs::Meaning::Acts::step_means_lem))]
pub fn step_means()
    ensures { StepMeans }
{}

/// A wait was the agent's turn in a session of its own, and is queued.
#[tactic(auto, using(crate::proofs::Meaning::Acts::wait_means_lem))]
pub fn wait_means()
    ensures { WaitMeans }
{}

/// An end was the agent's turn in a session of its own, is queued, and closes its stream.
#[tactic(auto, using(crate::proofs::Meaning::Acts::end_means_lem))]
pub fn end_means()
    ensures { EndMeans }
{}

/// A session of the agent without an outcome is given up: that is queued, and closes its stream.
#[tactic(auto, using(crate::proofs::Meaning::Acts::invalid_means_lem))]
pub fn invalid_means()
    ensures { InvalidMeans }
{}

/// A poll tells how the agent's session stands; one whose outcome is told is no longer live.
#[tactic(auto, using(crate::proofs::Meaning::Acts::poll_means_lem))]
pub fn poll_means()
    ensures { PollMeans }
{}

/// An agent that listens takes the untaken session of the least number, or is told that there is none.
#[tactic(auto, using(crate::proofs::Meaning::Acts::listen_means_lem))]
pub fn listen_means()
    ensures { ListenMeans }
{}

/// A request for negotiation begins a session on a stream that is dialled, and is queued for it.
pub fn request_means()
    ensures { RequestMeans }
{}

/// A request for synchronization begins a session on a stream that is dialled, and is queued for it.
#[tactic(auto, using(crate::proofs::Meaning::Requests::synchronize_means_lem))]
pub fn synchronize_means()
    ensures { SynchronizeMeans }
{}

/// A look-up tells what is cached, or how the agent's search stands, or begins one.
#[tactic(auto, using(crate::proofs::Meaning::Searches::discover_means_lem))]
pub fn discover_means()
    ensures { DiscoverMeans }
{}

/// A flood is queued for every neighbour of every link.
pub fn flood_means()
    ensures { FloodMeans }
{}

/// The floods of a name are told, and nothing changes.
#[tactic(auto, using(crate::proofs::Meaning::Searches::get_means_lem))]
pub fn get_means()
    ensures { GetMeans }
{}

/// The flood of a name and an initiator is gone.
#[tactic(auto, using(crate::proofs::Meaning::Searches::expire_means_lem))]
pub fn expire_means()
    ensures { ExpireMeans }
{}

/// A new agent has the next number, and comes last.
#[tactic(auto, using(crate::proofs::Meaning::Registry::register_asa_means_lem))]
pub fn register_asa_means()
    ensures { RegisterAsaMeans }
{}

/// A new objective is for one use, has a free name, and comes last.
#[tactic(auto, using(crate::proofs::Meaning::Registry::register_objective_means_lem))]
pub fn register_objective_means()
    ensures { RegisterObjectiveMeans }
{}

/// The value is the one that the agent's objective is offered with.
pub fn offer_means()
    ensures { OfferMeans }
{}

/// The agent's objective is offered with no value.
pub fn stop_offer_means()
    ensures { StopOfferMeans }
{}

/// The objective isn't listened for any more.
pub fn stop_listen_means()
    ensures { StopMeans }
{}

/// The agent's objective is gone.
#[tactic(auto, using(crate::proofs::Meaning::Registry::deregister_objective_means_lem))]
pub fn deregister_objective_means()
    ensures { DeregisterObjectiveMeans }
{}

/// The agent is gone, and so are its objectives and its searches.
#[tactic(auto, using(crate::proofs::Meaning::Registry::deregister_asa_means_lem))]
pub fn deregister_asa_means()
    ensures { DeregisterAsaMeans }
{}
