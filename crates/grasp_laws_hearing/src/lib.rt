//! Laws of what a node makes of what comes on its streams, and of what it says to its peers of its own accord. No code runs here.
#![tactic(auto)]

mod stream_laws;

pub use stream_laws::{
    closings_are_taken, messages_are_heard, openings_are_taken, pieces_are_heard,
};
