//! Laws of what a node makes of the datagrams of its neighbours, and of where it sends them on. No code runs here.
#![tactic(auto)]

mod datagram_laws;

pub use datagram_laws::{datagrams_are_taken, each_way_is_taken, other_ways_are_other};
