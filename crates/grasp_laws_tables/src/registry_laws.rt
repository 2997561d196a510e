//! Laws of registries.

ghost use Rattle.grasp_laws_tables.specs.Laws.{RegistryIsKept, RefusalsAreLeast, OthersLeaveAnObjective, TakenStaysTaken, NumbersAreNew};
ghost use Rattle.grasp_asa.specs.Registrations.{Registrations, IsRegistry};

/// What holds of every registry (its limits, no number and no name twice, each owner registered, flags of one use)
/// holds of an empty one, and each call keeps it.
#[tactic(auto, using(crate::proofs::LawKept::registry_kept))]
pub fn registry_is_kept()
    ensures { RegistryIsKept }
{}

/// Each call of a registry answers the refusal of the least number that holds of it, in the words of the refusals
/// themselves, and where the call is accepted none holds.
#[tactic(auto, using(crate::proofs::LawLeast::refusals_least))]
pub fn refusals_are_least()
    ensures { (r : Registrations) → IsRegistry r → RefusalsAreLeast r }
{}

/// Whatever the other agents call, an agent stays registered, and each of its objectives keeps its flags, its mark and its
/// value.
#[tactic(auto, using(crate::proofs::LawOthers::others_leave))]
pub fn others_leave_an_objective()
    ensures { OthersLeaveAnObjective }
{}

/// A name that an agent of the node has registered isn't registered again.
#[tactic(auto, using(crate::proofs::LawOthers::taken_stays))]
pub fn taken_stays_taken()
    ensures { TakenStaysTaken }
{}

/// A new agent's number is one more than the count of all that were ever registered, and above the number of each; no call
/// lowers the count.
#[tactic(auto, using(crate::proofs::LawOthers::numbers_new))]
pub fn numbers_are_new()
    ensures { NumbersAreNew }
{}
