//! Scripts of networks of doubters that are run: what their lines come to, and the text of their reports. No code runs here.
#![tactic(auto)]

mod laws;

pub use laws::{doubt_runs_or_stop, doubt_texts_agree, each_doubt_run_is_safe};
