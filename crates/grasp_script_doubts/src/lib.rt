//! Scripts of networks of doubters, as text. Their lines are those of scripts, without calls by agents 1 and 2, and besides
//! `doubter NODE` and `ask NODE ADDRESS/LENGTH NODE`.
#![tactic(auto)]

mod laws;
mod line;
mod lines;
mod reports;
mod script;
mod words;

pub use laws::{doubt_lines_mean_one_thing, texts_have_one_doubt_script};
pub use line::{DoubtLine, DoubtLineAct, DoubtLines};
pub use lines::read_doubt_line;
pub use reports::told_ask;
pub use script::{DoubtScript, parse_doubt_script};
