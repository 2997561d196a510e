//! Laws of the negotiations in a network: each stream on which one is asked for is a talk of two ends that keep to the protocol,
//! whatever is delayed or cut, and each session has one stream. No code runs here.
#![tactic(auto)]

mod negotiation_laws;
mod session_laws;

pub use negotiation_laws::{
    grounds_hold, negotiations_are_in_order, negotiations_are_known, negotiations_are_talks,
    negotiations_go_on, talks_are_safe, turns_leave_negotiations, turns_stay,
};
pub use session_laws::sessions_have_streams;
