//! Laws of networks whose nodes ask each other whether a prefix in doubt was ever accepted. No code runs here.
#![tactic(auto)]

mod laws;

pub use laws::{doubt_grounds_hold, doubted_are_reached, settlings_are_of_dead};
