//! A keeper of an agent's pool: it saves the pool's image on a disk before the agent's next call is made, so that a node that
//! crashes at any moment may begin again with what its disk has.
#![tactic(auto)]

mod fault;
mod image;
mod keeper;
mod looking;
mod opening;
mod place;
mod saving;
mod slot;
mod storing;

pub use fault::{KeepFault, OpenFault, Unopened};
pub use keeper::Keeper;
pub use place::Place;
