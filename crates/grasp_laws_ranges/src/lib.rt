//! Laws of the ranges of what a node queues: each is a message, within the limit. No code runs here.
#![tactic(auto)]

mod range_laws;

pub use range_laws::queued_are_messages;
