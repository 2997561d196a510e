//! Laws of how a step begins: what has ended by its time, what stays, and how what comes is read. No code runs here.
#![tactic(auto)]

mod beginning_laws;

pub use beginning_laws::{beginnings_expire, due_time_out, what_comes_is_read};
