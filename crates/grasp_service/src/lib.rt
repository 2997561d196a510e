//! A node that serves: rounds of its network loop, its agents and its visitors, one after the other, until a visitor stops it.
//!
//! One thread steps the core, so that the history of the node is what the rounds did, in their order. Where a store is open, it is
//! asked around the calls of the agent of prefixes, and a fault of it ends the service.
#![tactic(auto)]

mod acting;
mod begin;
mod crew;
mod cut;
mod exchange;
mod keeping;
mod plan;
mod pool_events;
mod round;
mod serve;
mod service;
mod service_end;
mod want_events;

pub use cut::Cut;
pub use plan::{HeraldPlan, ServicePlan};
pub use serve::serve_plan;
pub use service::Service;
pub use service_end::ServiceEnd;
