//! Links that are watched: what comes and what goes is written, a line each, and handed on as it is.
#![tactic(auto)]

mod lines;
mod page;
mod traced;
mod watched;
mod writer;

pub use traced::Traced;
