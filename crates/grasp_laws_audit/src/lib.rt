//! Laws of records of runs: the events of a record that holds are a run of safe networks, a text has one verdict, and the record of a
//! script's run holds. No code runs here.
#![tactic(auto)]

mod laws;

pub use laws::{
    audited_runs_are_safe, audits_agree, held_lines_tell, record_lines_hold, records_are_audited,
};
