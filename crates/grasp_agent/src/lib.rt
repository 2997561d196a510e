//! Agents of a node: the one that manages prefixes (RFC 8992), those that announce a value, and those that read one.
#![tactic(auto)]

mod act;
mod agent;
mod back;
mod beacon;
mod change;
mod decision;
mod duty;
mod giver;
mod giving;
mod names;
mod prefix_agent;
mod reader;
mod replies;
mod requester;
mod stage;
mod threads;
mod value;
mod want;

pub use agent::Agent;
pub use back::ReturnFault;
pub use beacon::Beacon;
pub use change::PoolChange;
pub use decision::{GiverDecision, Reason, RequesterDecision};
pub use duty::Duty;
pub use prefix_agent::PrefixAgent;
pub use reader::Reader;
pub use threads::agents_may_cross;
pub use want::{WantEnd, WantFault};
