//! Laws of nodes that run: they are members of a network, as far as they are given what a network can give, and so the promise is one of nodes that
//! run. No code runs here.
#![tactic(auto)]

mod running_laws;

pub use running_laws::{
    members_may_call, others_call_as_others, running_nodes_are_safe, running_nodes_hold_apart,
    runs_have_acts,
};
