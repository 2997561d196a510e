//! Laws of the agents of prefixes in a network and of what they offer, which hold of every network that turns lead to. No code runs here.
#![tactic(auto)]

mod agent_laws;
mod offer_laws;

pub use agent_laws::{
    agents_are_kept, agents_serve, gone_sessions_are_owned, own_sessions_go_on, own_sessions_stay,
    sessions_are_owned,
};
pub use offer_laws::{agents_give, agents_move, calls_mean};
