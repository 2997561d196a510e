//! A node with any list of agents: one thread asks the links, steps the node, and lets each agent make a call, turn by turn.
//!
//! What an agent does is what its trait `Agent` says, so that a program with agents of its own is a `main` that opens a node, its
//! agents and its links, and calls `run_agents`.
#![tactic(auto)]

mod acting;
mod exchange;
mod running;
mod running_end;

pub use running::run_agents;
pub use running_end::RunningEnd;
