//! Scripts of networks whose nodes crash, as text. Their lines are those of scripts, and `crash NODE K old`, `new` or `torn`.
#![tactic(auto)]

mod crash;
mod laws;
mod line;
mod reports;
mod script;
mod split;

pub use crash::read_kept_line;
pub use laws::{kept_lines_mean_one_thing, texts_have_one_kept_script};
pub use line::{KeptLine, KeptLines};
pub use reports::told_restart;
pub use script::{KeptScript, parse_kept_script};
