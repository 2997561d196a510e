//! Laws of nodes that run and begin anew: over all their lives they are members of one network, where each life begins with what a crash may have left
//! of the one before. No code runs here.
#![tactic(auto)]

mod lives_laws;

pub use lives_laws::{
    first_disks_are_there, first_disks_open_roots, kept_lives_are_safe, lives_can_end,
    lives_end_anywhere, lives_take_turns,
};
