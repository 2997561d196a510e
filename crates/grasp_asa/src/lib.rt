//! Who is registered at a node, and for what: its agents, which RFC 8991 calls autonomic service agents, and their
//! objectives (RFC 8990, section 2.10).
#![tactic(auto)]

mod entry;
mod registry;
mod threads;

pub use registry::Registry;
pub use threads::registry_may_cross;
