//! Scripts of networks that are run: what each line does in a network and how it is reported, the networks to which the lines of a
//! script lead, and the text of their reports.
#![tactic(auto)]

mod laws;

pub use laws::{
    each_network_is_safe, each_run_is_safe, networks_are_listed, runs_of_lines_are_runs,
    runs_or_stops, scripts_restart_nobody, texts_agree,
};
