//! Lines straight from the bytes of messages, and bytes straight from lines, for what most senders write. Whatever is unusual is left
//! to the readers of messages.
#![tactic(auto)]

mod first;
mod kinds;
mod line;
mod locators;
mod packed;
mod parts;
mod places;
mod room;
mod shown;

pub use first::first_message;
pub use line::{front_line, quick_line};
pub use packed::{packed_line, quick_bytes};
pub use room::Room;
