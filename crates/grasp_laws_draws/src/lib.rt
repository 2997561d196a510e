//! Laws on the scripts that are drawn from numbers; no code.
#![tactic(auto)]

mod laws;

pub use laws::drawn_texts_are_scripts;
