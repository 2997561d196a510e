//! Laws of the sessions to which the agents of prefixes in a network attend. No code runs here.
#![tactic(auto)]

mod duty_laws;

pub use duty_laws::own_sessions_are_duties;
