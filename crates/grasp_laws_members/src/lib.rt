//! Laws of nodes that run as members of a network: what happens at them is what turns of the network do, where they are given what the network
//! can give. No code runs here.
#![tactic(auto)]

mod member_laws;

pub use member_laws::{clocks_begin_steps, gives_what_comes, members_take_turns};
