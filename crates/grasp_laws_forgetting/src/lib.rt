//! Laws of what the disks of a network don't forget: what an agent is about to accept, and what it has. No code runs here.
#![tactic(auto)]

mod forgetting_laws;

pub use forgetting_laws::{accepted_are_kept, nothing_is_forgotten};
