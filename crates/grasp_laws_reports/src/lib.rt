//! Laws of what the agents of a network are told of their sessions, of clock readings and of closed streams, of the words that tell an
//! agreement or floods, and that the events determine a run. No code runs here.
#![tactic(auto)]

mod flood_laws;
mod outcome_laws;
mod run_laws;

pub use flood_laws::floods_reports_tell;
pub use outcome_laws::{
    agreed_reports_tell, agreed_words_tell, cuts_are_final, cuts_are_final_over_turns,
    outcomes_are_told_once, outcomes_are_told_once_over_turns, polls_tell_outcomes,
    readings_never_fall,
};
pub use run_laws::{runs_agree, runs_go_on, stops_agree};
