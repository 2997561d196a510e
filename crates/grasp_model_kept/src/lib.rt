//! Networks whose nodes keep their pools on disks, and crash: what happens in them, what a crash leaves, and which turns of a network it
//! comes to.
//!
//! What happens is said in specs/. What runs such networks stands above.
#![tactic(auto)]

mod event;
mod report;

pub use event::KeptEvent;
pub use report::KeptReport;
