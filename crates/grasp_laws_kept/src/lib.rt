//! Laws of networks whose nodes keep their pools on disks, and crash. No code runs here.
#![tactic(auto)]

mod laws;

pub use laws::{
    disks_have_their_images, kept_networks_are_listed, kept_networks_are_safe, kept_runs_are_turns,
};
