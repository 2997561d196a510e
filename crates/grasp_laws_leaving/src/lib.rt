//! Laws of how a node declines the requests of peers that nobody listens for any more, and in which order. No code runs here.
#![tactic(auto)]

mod leaving_laws;

pub use leaving_laws::{declines_are_in_turn, leaving_ends_its_own};
