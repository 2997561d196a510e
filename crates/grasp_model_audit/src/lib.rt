//! Records of runs: which events the lines of a record name, when each line holds, which line of a text is at fault and why, and the
//! record of a script's run.
#![tactic(auto)]

mod verdict;

pub use verdict::{Audit, AuditFault};
