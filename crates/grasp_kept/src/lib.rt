//! Runs networks whose nodes keep their pools on disks in memory, and crash.
#![tactic(auto)]

mod around;
mod asking;
mod beginning;
mod crash;
mod kept_world;
mod opening;
mod roots;

pub use kept_world::KeptWorld;
