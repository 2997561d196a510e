//! One core of a node that many threads call, each through a pass of its own, in one history.
//!
//! A pass has no bytes. It knows what it has seen of the history and its own calls in it, and the contracts speak of both.
//! One word and one slot are all that the threads share: nobody holds a lock, and only `call` and `root_call` wait.
#![tactic(auto)]

mod bytes;
mod calling;
mod calls;
mod plays;
mod shared;
mod threads;
mod turn;
mod view;

pub use bytes::note_bytes;
pub use shared::{Busy, Pass, Root, Shared, Unshared};
pub use threads::passes_may_cross;
pub use turn::step_core;
pub use view::View;
