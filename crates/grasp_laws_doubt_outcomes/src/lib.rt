//! Laws of what events and scripts come to in networks of doubters: each comes out, unless more is sent than may be. No code runs here.
#![tactic(auto)]

mod outcome_laws;

pub use outcome_laws::{
    doubt_events_come_out, doubt_networks_are_listed, doubt_script_events_fit, doubt_scripts_run,
};
