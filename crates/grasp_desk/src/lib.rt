//! Who asks a node from beside: a desk to which visitors come, each with the lines that it writes. It is a trait whose ghost
//! members say what was given and told, where that is told, and a desk in memory, and one over Unix sockets.
#![tactic(auto)]

mod connection;
mod counters;
mod desk;
mod door;
mod hall;
mod memory_desk;
mod mio_desk;

pub use counters::{CountedDesk, DeskCounters};
pub use desk::{Desk, DeskPlan, Told, Visiting};
pub use memory_desk::{MemDesk, Visit};
pub use mio_desk::{DeskFault, MioDesk};
