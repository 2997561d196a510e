//! What a pool is opened anew with.

use grasp_types::{List, Prefix};

/// Prefixes in order.
pub type PrefixList = List<Prefix>;

/// The prefixes that a pool is to have. Any prefixes may stand here: `Pool::reopen` tells whether a pool can have them all.
#[derive(Debug, Drop)]
pub struct PoolImage {
    /// Those whose addresses are to be free.
    pub free: PrefixList,
    /// Those that are to be doubtful.
    pub doubtful: PrefixList,
}
