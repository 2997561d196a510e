//! Runs networks whose nodes ask each other whether a prefix in doubt was ever accepted, and settle it where it never was.
#![tactic(auto)]

mod addresses;
mod asking;
mod calling;
mod doubt_world;
mod opening;
mod seeing;

pub use doubt_world::DoubtWorld;
