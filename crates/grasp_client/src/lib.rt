//! The client of a node's control socket: it asks lines, and copies what it is told until each of them is answered. It is proved
//! over any ends from which bytes come and to which they go.
#![tactic(auto)]

mod asking;
mod conversation;
mod ending;
mod lines;
mod stream;
mod task;

pub use conversation::converse;
pub use ending::Ending;
pub use stream::StreamSource;
pub use task::{Question, Task};
