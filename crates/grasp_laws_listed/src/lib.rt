//! Laws of the offers that a network lists: for which stream a prefix that is reserved or in doubt is listed, and what was offered there. No code
//! runs here.
#![tactic(auto)]

mod listed_laws;

pub use listed_laws::{doubted_were_offered, one_offer_a_stream, reserved_are_offered};
