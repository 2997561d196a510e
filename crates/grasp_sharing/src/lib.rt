//! What of a node threads may share.
#![tactic(auto)]

mod threads;

pub use threads::nodes_may_be_shared;
