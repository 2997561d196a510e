//! Laws of the visitors of a node that serves. Guests order nothing, what changed was ordered, and each visitor calls as its own agent alone. No code
//! runs here.
#![tactic(auto)]

mod visit_laws;

pub use visit_laws::{
    changes_were_ordered, guests_order_nothing, orders_are_taken, rounds_are_sittings,
    visitors_call_as_their_own,
};
