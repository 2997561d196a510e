//! What a node that speaks GRASP (RFC 8990) is: its plan, its state, and one step of it, from an agent's call, a datagram, an
//! opening, bytes, a closing or a drain at a clock reading to an answer and what is queued. No code runs here but that of plans.
#![tactic(auto)]

mod plan;
mod way;

pub use plan::NodePlan;
pub use way::Way;
