//! Laws of the steps of a node: what its lists keep, what its sessions say, what it relays, dials and queues. No code runs here.
#![tactic(auto)]

mod begin_laws;
mod dial_laws;
mod drain_laws;
mod fed_laws;
mod means_laws;
mod node_laws;
mod number_laws;
mod peer_laws;
mod refusal_laws;
mod relay_laws;
mod tie_laws;

pub use begin_laws::{a_beginning_is_enough, beginnings_end_things, sessions_time_out};
pub use dial_laws::{dials_are_counted, drains_dial_nothing, queues_are_in_order, sends_are_known};
pub use drain_laws::{drains_close_once, drains_give_in_order};
pub use fed_laws::{comings_agree, fed_nodes_are_kept, kept_is_bounded, something_always_comes};
pub use means_laws::{
    deregister_asa_means, deregister_objective_means, discover_means, end_means, expire_means,
    flood_means, get_means, invalid_means, listen_means, offer_means, poll_means,
    register_asa_means, register_objective_means, request_means, step_means, stop_listen_means,
    stop_offer_means, synchronize_means, wait_means,
};
pub use node_laws::{node_steps_are_bounded, nodes_are_kept};
pub use number_laws::{drawn_is_unused, numbers_are_own};
pub use peer_laws::{datagrams_leave_agents, peers_leave_the_rest};
pub use refusal_laws::{answers_the_first, least_is_answered, same_messages_come};
pub use relay_laws::{memories_stay, relays_are_once, ways_are_distinct};
pub use tie_laws::ties_are_kept;
