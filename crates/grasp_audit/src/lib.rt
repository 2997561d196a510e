//! Audits of recorded runs.
//!
//! A record is audited by running it: a network of its plan takes what the lines say that its nodes took, and answers. What a line of a
//! record means, and which event of the network it names, is said in `grasp_record` and `grasp_model_audit`.
#![tactic(auto)]

mod agents;
mod answers;
mod arrivals;
mod brought;
mod calls;
mod clocks;
mod drains;
mod events;
mod fault;
mod headers;
mod line;
mod lines;
mod numbers;
mod reading;
mod sides;
mod split;
mod told;
mod verdict;

pub use verdict::audit;
