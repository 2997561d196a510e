//! Laws of what happens on each stream of a node in a step. No code runs here.
#![tactic(auto)]

mod laws;

pub use laws::{
    acceptances_are_calls, clear_streams_are_kept, ended_sessions_stay, streams_have_stories,
};
