//! Laws of the prefixes in a network, which never overlap, and of the addresses of its roots, each of which is in one hand at every
//! moment. No code runs here.
#![tactic(auto)]

mod address_laws;
mod prefix_laws;

pub use address_laws::{
    dead_are_found, first_holdings, former_offers_are_known, nothing_appears, nothing_is_lost,
    offers_are_known, settled_are_held,
};
pub use prefix_laws::{grounds_hold, prefixes_stay_apart};
