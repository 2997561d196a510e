//! The configuration of a node, which is a TOML table.
//!
//! `read_config` reads it, or tells the first of its keys that is bad. `read_serve` does so for a node that serves, whose
//! table has a table `serve` besides. `bad_places` and `bad_serve_places` tell people all places that are bad.
#![tactic(auto)]

mod basics;
mod config;
mod fault;
mod finding;
mod floodable;
mod items;
mod laws;
mod level;
mod lists;
mod node_part;
mod node_places;
mod place;
mod place_lines;
mod places;
mod read;
mod serve;
mod serve_fault;
mod serve_groups;
mod serve_keys;
mod serve_laws;
mod serve_pace;
mod serve_places;
mod serve_reading;
mod serve_streams;
mod table;
mod words;

pub use config::{BeaconConfig, NodeConfig, WantConfig};
pub use fault::{ConfigFault, ConfigKey, key_word};
pub use laws::{
    configs_are_in_range, configs_have_no_bad_key, endpoints_and_roots_are_read,
    texts_are_configs_or_bad, texts_have_one_bad_key, texts_have_one_config,
};
pub use level::LogLevel;
pub use place::BadPlace;
pub use places::{bad_places, bad_serve_places};
pub use read::read_config;
pub use serve::{AllowedRange, ServeConfig, ServeTable};
pub use serve_fault::{ServeFault, ServeKey, serve_key_word};
pub use serve_laws::{
    serves_are_in_range, serves_have_no_bad_key, texts_have_one_serve, texts_serve_or_bad,
};
pub use serve_pace::flood_pause;
pub use serve_reading::read_serve;
