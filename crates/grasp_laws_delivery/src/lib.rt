//! Laws of the streams between the nodes of a network: what is said, sent and delivered on them, and how it is cut into messages
//! again. They hold of every network that turns lead to. No code runs here.
#![tactic(auto)]

mod byte_laws;
mod sent_laws;
mod stream_laws;

pub use byte_laws::{
    pieces_give_what_was_said, records_hold_what_came, undrained_are_reached, what_is_said_fits,
    what_is_said_is_sent_or_queued, what_was_said_is_given,
};
pub use sent_laws::{datagrams_are_messages, nodes_are_fed};
pub use stream_laws::{ended_lives_stay, steps_are_present, streams_are_ready};
