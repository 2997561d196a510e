//! Runs scripts of networks of doubters, and writes what is reported of their lines.
#![tactic(auto)]

mod lines;
mod placing;
mod reports;

pub use lines::run_doubt_line;
pub use reports::write_doubt_reports;
