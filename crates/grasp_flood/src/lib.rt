//! What floods told a node, and which floods it must not send on again (RFC 8990, section 2.5.6.2).
//!
//! A flood is known by its session number and its initiator. What it told is kept under a name and an initiator, with
//! an end or without one. Readings of the clock and lifetimes are in milliseconds.
#![tactic(auto)]

mod cache;
mod heard;
mod kept;
mod keys;
mod laws;
mod threads;

pub use cache::FloodCache;
pub use heard::Heard;
pub use kept::FloodKept;
pub use keys::FloodKey;
pub use laws::{
    entries_are_told, expiry_twice_is_once, floods_are_kept, last_part_is_kept,
    nothing_ended_stays, only_the_ended_go, reads_are_entries, remembered_stays,
};
pub use threads::floods_may_cross;
