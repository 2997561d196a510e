//! Laws of the events of a network: what each of them leaves, what it notes, and what every network that turns lead to keeps. No code runs here.
#![tactic(auto)]

mod event_laws;
mod life_laws;
mod network_laws;
mod note_laws;
mod setting_laws;

pub use event_laws::{
    bytes_are_counted, nodes_are_sound, outcomes_agree, queues_grow, returns_change_returns,
    seats_stay, visits_are_here, wants_change_wants, what_was_sent_stays,
    what_was_sent_stays_over_turns,
};
pub use life_laws::{
    events_keep_lives, lives_are_kept, restarts_begin_anew, settled_stay, settlings_free,
};
pub use network_laws::{
    drains_are_steps, held_then_drained, links_are_found, nothing_comes_of_nothing, others_stay,
    script_nodes_open, sending_keeps_nodes, worlds_begin,
};
pub use note_laws::replies_are_noted;
pub use setting_laws::{routes_return, script_pools_open, scripts_are_good};
