//! Laws of what the nodes of a network are told of those that dial them. No code runs here.
#![tactic(auto)]

mod opener_laws;

pub use opener_laws::openers_are_told;
