//! Who serves at a node: the agents of the node itself, each with what is due to be told to it and when it makes a call, and
//! the seats of visitors.
#![tactic(auto)]

mod herald;
mod listener;
mod replies;
mod seat;
mod servant;
mod steward;
mod trying;

pub use herald::Herald;
pub use listener::Listener;
pub use seat::{Awaiting, Gate, Noted, Seat, note_of};
pub use servant::Servant;
pub use steward::Steward;
pub use trying::{Pace, Trying};
