//! Laws of nodes that serve: they are members of a network, as far as they are given what a network can give, and so the promise is one of nodes that
//! serve. No code runs here.
#![tactic(auto)]

mod serving_laws;

pub use serving_laws::{
    histories_happened, served_courses_go_on, services_have_acts, serving_nodes_are_safe,
    serving_nodes_hold_apart,
};
