//! The core of a node that speaks GRASP (RFC 8990): one call, `step`, takes an agent's call, a datagram, an opening,
//! bytes, a closing or a drain at a reading of a clock, and answers at once. `specs/` says what one step is.
#![tactic(auto)]

mod answering;
mod begin;
mod bytes;
mod calls;
mod carried;
mod comings;
mod datagrams;
mod declining;
mod discoveries;
mod draining;
mod draws;
mod feeding;
mod first;
mod flood_calls;
mod floods;
mod gates;
mod hearing;
mod inputs;
mod kept;
mod limit;
mod node_core;
mod opening;
mod outgoing;
mod queue;
mod ready;
mod registry_calls;
mod requests;
mod responses;
mod sending;
mod session_calls;
mod step;
mod streams;
mod threads;
mod ways;

pub use comings::something_comes;
pub use node_core::NodeCore;
pub use opening::PlanFault;
pub use threads::node_may_cross;
