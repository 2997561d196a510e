//! Pools of prefixes: which addresses a node may give, which are reserved, and which are in doubt (RFC 8992).
#![tactic(auto)]

mod fault;
mod firsts;
mod free_list;
mod halves;
mod image;
mod laws;
mod listing;
mod overlapping;
mod pool;
mod roots;
mod sorted_list;

pub use fault::{GainFault, PoolFault};
pub use image::{PoolImage, PrefixList};
pub use laws::{
    clean_lists_are_canonical, free_means, gain_means, good_roots_open, lowest_free_is_lowest,
    one_canonical_list, one_lowest_free, reopened_means, reserved_calls_mean, same_sets_same_pool,
    settle_means, take_at_means, take_means,
};
pub use overlapping::overlaps;
pub use pool::Pool;
pub use roots::RootPrefix;
pub use sorted_list::insert_prefix;
