//! Laws of the sessions of an agent that alone has the objective of a name, at any node. No code runs here.
#![tactic(auto)]

mod laws;

pub use laws::{
    beginnings_leave_owners, others_leave_owners, owners_keep_serving, owners_leave_by_polls,
};
