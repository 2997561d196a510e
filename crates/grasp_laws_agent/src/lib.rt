//! Laws of the agents of a node: what they decide, offer and keep (RFC 8992). No code runs here.
#![tactic(auto)]

mod laws;
mod retiring_laws;
mod return_laws;

pub use laws::{
    agent_moves, agents_are_kept, cursors_turn, gains_are_accepted, givers_decide, givers_offer,
    next_calls_are, offers_stay_listed, openings_go_on, readers_agree, replies_change_pools,
    requesters_decide, values_are_read, values_are_values,
};
pub use retiring_laws::{agents_may_reopen, agents_retire, settling_keeps};
pub use return_laws::{
    duties_are_in_order, refusals_are_repeated, returns_are_answered, returns_are_read,
    returns_are_requested, settlings_settle,
};
