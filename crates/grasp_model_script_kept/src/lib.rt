//! Scripts of networks whose nodes crash that are run: what their lines come to, and the text of their reports. No code runs here.
#![tactic(auto)]

mod laws;

pub use laws::{each_kept_run_is_safe, kept_runs_or_stop, kept_texts_agree};
