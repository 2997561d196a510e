//! A node and its agents, which call its core beside each other.
//!
//! Before all else the agent that manages prefixes makes its opening calls. A turn of the network loop reads the clock, asks
//! the links once, gives what they gave to the core, and drains the core into the links. Each agent has a thread of its own, in
//! which it makes one call in each of its turns. What all callers did is one history of the core, which the contracts speak of.
#![tactic(auto)]

mod beside;
mod daemon;
mod exchange;
mod exit;
mod first_calls;
mod gate;
mod handing;
mod laws;
mod lines;
mod manager;
mod named_reader;
mod opening;
mod pace;
mod passes;
mod plan;
mod planning;
mod program;
mod program_end;
mod run;
mod seated_agent;
mod want_plan;
mod words;
mod worker;

pub use daemon::Daemon;
pub use exit::{Status, fault_line, fault_text};
pub use first_calls::open_agent;
pub use gate::{Gate, OpenGate};
pub use handing::{ask_once, away_of, close_again, hand_over, opened, send_all};
pub use laws::{nodes_open_as_seats, statuses_are_told, want_ends_are_told};
pub use lines::text_of;
pub use manager::Manager;
pub use named_reader::NamedReader;
pub use opening::open_core;
pub use plan::{BeaconPlan, DaemonPlan};
pub use planning::{daemon_plan, link_plan};
pub use program::{node_main, node_run};
pub use program_end::{finish, print_text};
pub use run::run_node;
pub use seated_agent::SeatedAgent;
pub use want_plan::WantPlan;
pub use words::{Text, text_for};
pub use worker::Worker;
