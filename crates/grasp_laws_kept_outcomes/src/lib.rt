//! Laws of what events and scripts come to where nodes crash: each comes out, unless more is sent than may be. No code runs here.
#![tactic(auto)]

mod outcome_laws;

pub use outcome_laws::{kept_events_come_out, kept_script_events_fit, kept_scripts_run};
