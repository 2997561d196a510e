//! Laws of what each event of a network does: which step it makes, what is reported of it, where its datagrams go, how the sides of streams stand
//! after it, and why it may stop the network; and of what agents and doubters call. No code runs here.
#![tactic(auto)]

mod agent_laws;
mod doubter_laws;
mod event_laws;
mod setting_laws;

pub use agent_laws::{
    acts_are_called, duties_are_called, locators_are_dialled, one_loop_has_no_turn,
};
pub use doubter_laws::{
    asks_are_answered, doubters_follow, doubts_are_called, questions_are_answered, questions_end,
};
pub use event_laws::{
    datagrams_are_sent, events_are_reported, events_make_steps, networks_begin, sides_stand_so,
    steps_have_streams, steps_leave_nodes, stops_have_causes,
};
pub use setting_laws::{scripts_have_settings, ways_lead_to_neighbours};
