//! Where objectives can be reached: the searches of a node, the locators that responses told it, and the discoveries
//! that it must not send on again (RFC 8990, section 2.5.4).
//!
//! A discovery is known by its session number and its initiator. Locators are cached under a name and a use, each until
//! its end. Readings of the clock, timeouts and lifetimes are in milliseconds.
#![tactic(auto)]

mod answers;
mod cached;
mod discovery;
mod entries;
mod laws;
mod memory;
mod search;
mod threads;
mod topic;

pub use answers::{Answered, BeginRefused, Cause, Find, Heard};
pub use discovery::Discovery;
pub use laws::{
    discoveries_are_kept, expiry_twice_is_once, known_is_found, locators_are_answers,
    nothing_ended_stays, only_the_ended_go, remembered_stays, told_is_cached,
};
pub use threads::discoveries_may_cross;
