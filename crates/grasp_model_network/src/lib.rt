//! A network of nodes, each with an agent that manages prefixes: what happens in it, and what comes of it.
//!
//! What a network is and what each event does is said in specs/. Plans are tested here; what runs networks stands above.
#![tactic(auto)]

mod check;
mod copies;
mod event;
mod plan;
mod report;
mod turn;

pub use event::Event;
pub use plan::{MemberLists, Members, RootAt, RootList, WorldPlan};
pub use report::{Report, WorldStop};
pub use turn::Turn;
