//! Laws of what nodes know once they ask each other whether a prefix was ever accepted. No code runs here.
#![tactic(auto)]

mod acceptance_laws;
mod agent_laws;
mod opening_laws;

pub use acceptance_laws::{acceptances_agree, listed_are_asked, requesters_saw};
pub use agent_laws::{agents_leave_by_polls, requested_sessions_are_wants};
pub use opening_laws::questions_begin;
