//! Scripts of networks that are drawn from a number.
#![tactic(auto)]

mod draws;
mod generator;
mod header;
mod lines;
mod rounds;

pub use generator::script_of;
