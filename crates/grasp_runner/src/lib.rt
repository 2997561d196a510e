//! Runs scripts of networks, and writes what is reported of their lines.
#![tactic(auto)]

mod counting;
mod drawn;
mod events;
mod fault;
mod holdings;
mod lines;
mod reports;
mod summary;
mod tally;

pub use fault::RunFault;
pub use lines::run_line;
pub use reports::write_reports;
pub use summary::write_summary;
