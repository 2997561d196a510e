//! Laws of what a node sends: what is queued fits, what is written down of it, and what a drain gives and leaves alone. No code runs here.
#![tactic(auto)]

mod sending_laws;

pub use sending_laws::{
    drains_are_exact, queues_fit, what_is_given_fits, what_is_sent_is_recorded,
};
