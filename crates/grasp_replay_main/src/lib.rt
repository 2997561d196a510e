//! The tasks of the tool for GRASP (RFC 8990): `show` writes a line for each message of a stream, `pack` a message for
//! each line, `replay` what each line of a script of a network comes to, `keep` that of a network whose nodes crash,
//! `resolve` that of a network whose nodes ask each other about doubtful prefixes, `record` the record of a script's run,
//! `audit` whether a record is that of a run, and `gen` what the run of a script came to that is drawn from a number. One
//! call, `replay_main`, does all of it over any source and sink.
#![tactic(auto)]

mod audit;
mod drawn;
mod ending;
mod exit;
mod keep;
mod laws;
mod lines;
mod pack;
mod program;
mod record;
mod replay;
mod resolve;
mod show;
mod task;
mod unfinished;
mod words;

pub use ending::{finish, print_text};
pub use exit::{Finding, Status, fault_line};
pub use laws::tasks_are_functions;
pub use program::replay_main;
pub use words::{Text, text_for};
