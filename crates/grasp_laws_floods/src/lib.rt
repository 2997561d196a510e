//! Laws of floods and discoveries in a network: whatever an agent reads, its initiator flooded, and each discovery that
//! goes anywhere was begun by a search. No code runs here.
#![tactic(auto)]

mod laws;

pub use laws::{
    discoveries_are_real, initiators_tell_searches, other_floods_are_real, read_floods_are_real,
    reads_come_later, relays_are_once_here,
};
