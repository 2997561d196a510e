//! The one call of the program for a node that serves.
//!
//! `node_serve` reads what configures the node, opens what that says, and serves until a visitor stops the node.
#![tactic(auto)]

mod planning;
mod program;
mod status;

pub use program::node_serve;
pub use status::Status;
