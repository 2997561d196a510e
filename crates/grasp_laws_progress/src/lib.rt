//! Laws of the outcomes of a node's steps: no input is left without one. No code runs here.
#![tactic(auto)]

mod progress_laws;

pub use progress_laws::{each_coming_comes_out, each_input_comes_out};
