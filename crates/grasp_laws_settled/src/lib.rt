//! The law of what doubters settle: each prefix that was settled was asked for, and is accepted never. No code runs here.
#![tactic(auto)]

mod laws;

pub use laws::each_doubt_is_resolved;
