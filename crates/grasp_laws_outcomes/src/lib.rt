//! Laws of what events and scripts come to: each comes out, unless more is sent than may be. No code runs here.
#![tactic(auto)]

mod outcome_laws;

pub use outcome_laws::{events_come_out, script_events_fit, scripts_run};
