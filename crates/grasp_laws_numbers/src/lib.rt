//! Laws of the session numbers that a node draws. No code runs here.
#![tactic(auto)]

mod number_laws;

pub use number_laws::{drawn_is_next, used_are_in_use};
