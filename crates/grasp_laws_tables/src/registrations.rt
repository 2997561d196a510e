//! What the look-ups of a registry say of what is registered, and what its calls leave. These functions say nothing at run
//! time.

ghost use Rattle.grasp_laws_tables.specs.Registering.{RegistriesAreLeft};
ghost use Rattle.grasp_laws_tables.specs.Registrations.{LookUpsAreRegistered, NamesAreRegistered};

/// The flags, the listener and the offered value of a name are those of the one objective that is registered under it, and
/// none exactly where there is none such.
#[tactic(auto, using(crate::proofs::RegistryLaws::look_ups))]
pub fn look_ups_are_registered()
    ensures { LookUpsAreRegistered }
{}

/// The names of an agent are exactly those of the objectives that it registered, in the order of their registration.
pub fn names_are_registered()
    ensures { NamesAreRegistered }
{}

/// What is new comes last; an agent leaves with just its objectives, and an objective alone; a mark or a value is that of
/// the one name. A call that is refused changes nothing.
#[tactic(auto, using(crate::proofs::RegistryCalls::registries_left))]
pub fn registries_are_left()
    ensures { RegistriesAreLeft }
{}
