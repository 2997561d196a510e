//! A law of what is in doubt at one node while the other has accepted it. No code runs here.
#![tactic(auto)]

mod laws;

pub use laws::accepted_doubts_agree;
