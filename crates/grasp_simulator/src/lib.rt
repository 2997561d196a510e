//! Runs networks of nodes in memory.
//!
//! What a network is and what each event does is said in `grasp_model_network`; specs/ says how the code stands for a network.
#![tactic(auto)]

mod coming_laws;
mod images;
mod marks;
mod notes;
mod opening;
mod parcel;
mod places;
mod seat;
mod stream;
mod streams;
mod ways;
mod world;
mod world_agents;
mod world_arrivals;
mod world_asks;
mod world_cuts;
mod world_datagrams;
mod world_events;
mod world_lends;
mod world_pieces;
mod world_sends;
mod world_turns;

pub use coming_laws::something_comes_to_cores;
pub use parcel::Parcel;
pub use world::World;
pub use world_arrivals::Waiting;
pub use world_lends::SideEnd;
