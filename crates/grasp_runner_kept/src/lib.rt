//! Runs scripts of networks whose nodes crash, and writes what is reported of their lines.
#![tactic(auto)]

mod events;
mod lines;
mod placing;
mod reports;

pub use lines::run_kept_line;
pub use reports::write_kept_reports;
