//! Writes the record of a script's run: the script's header, and then what each node took and answered at each line, raw bytes and
//! all.
#![tactic(auto)]

mod answers;
mod fault;
mod header;
mod placing;
mod recorder;
mod taken;
mod texts;
mod traffic;
mod writing;

pub use recorder::Recorder;
pub use writing::write_record;
