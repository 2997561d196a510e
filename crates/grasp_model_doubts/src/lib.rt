//! Networks whose nodes ask each other whether a prefix in doubt was ever accepted, and settle it where it never was: what happens in
//! them, and what comes of it.
//!
//! What happens is said in specs/. What runs such networks stands above.
#![tactic(auto)]

mod event;
mod report;

pub use event::DoubtEvent;
pub use report::DoubtReport;
