//! The lines of a record: what each node of a network took and answered, as text.
//!
//! A line is a node's number, the reading of its clock, what it took, ` = ` and what it answered, raw bytes and all. A line
//! means one thing at most, and what it means has no other line.
#![tactic(auto)]

mod answers;
mod inputs;
mod laws;
mod line;
mod names;
mod outcomes;
mod outputs;
mod records;
mod writing;

pub use laws::{each_record_has_one_line, record_lines_mean_one_thing};
pub use line::{RecordAnswer, RecordInput, RecordLine};
pub use records::read_record_line;
pub use writing::push_record_line;
