//! GRASP messages as bytes (RFC 8990, section 2.8): which bytes are a message, and which messages a stream is.
#![tactic(auto)]

mod cutter;
mod direct;
mod encoding;
mod fault;
mod laws;
mod message;
mod one;
mod read_on;
mod reading;
mod threads;
mod writing;

pub use cutter::Cutter;
pub use encoding::{
    encode, encoded, end_fits, fits, flood_fits, invalid_fits, shortest_is_wire_form, step_fits,
};
pub use fault::{CutFault, EncodeFault, OneFault};
pub use laws::{
    answers_are_divided, any_pieces_cut_alike, cutters_give_whole, divisions_grow,
    encoded_come_first, forms_are_decoded, fronts_divide, given_come_first,
    one_answer_for_a_datagram, one_division_of_a_stream, one_kind_of_rest, one_message_for_bytes,
    one_next_answer,
};
pub use one::decode_one;
pub use threads::cutters_may_cross;
