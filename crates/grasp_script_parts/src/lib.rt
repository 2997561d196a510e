//! Parts of scripts and of reports, as text: the header with which a text begins, and the words of a call, of what an event came to, and
//! of a node's state.
#![tactic(auto)]

mod head;
mod pushing;
mod split;
mod texts;

pub use head::read_head;
pub use split::first_line;
pub use texts::{answer_text, call_text, state_text};
