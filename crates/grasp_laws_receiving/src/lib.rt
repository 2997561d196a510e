//! Laws of what a session makes of each message that comes, of what is written down of it, of what its outcome tells, of how sessions
//! are found, and of the bits of flags. No code runs here.
#![tactic(auto)]

mod flag_laws;
mod session_laws;

pub use flag_laws::flags_are_bits;
pub use session_laws::{
    messages_are_received, outcomes_have_causes, sessions_are_found, transcripts_record,
};
