//! Laws of the images that a keeper keeps of an agent: which of them a crash may leave, and that each may open the agent anew. No
//! code runs here.
#![tactic(auto)]

mod laws;

pub use laws::{
    accepting_reopens, current_images_stay, images_are_in_order, images_reopen,
    kept_images_may_reopen, pools_have_their_images, replies_reopen, saves_do, stops_are_exact,
};
