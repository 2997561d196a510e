//! Laws of nodes that serve and begin anew: over all their lives they are members of one network, where each life begins with what a crash may have left
//! of the node's store. No code runs here.
#![tactic(auto)]

mod served_laws;

pub use served_laws::{served_lives_are_safe, served_lives_have_acts, stores_are_asked};
