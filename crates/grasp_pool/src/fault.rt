//! Why a pool isn't opened, and why a prefix isn't gained.

use grasp_types::Prefix;
use thiserror::Error;

/// Why a pool isn't opened, in the order of the tests.
#[derive(Debug, Drop, PartialEq, Eq, Error)]
pub enum PoolFault {
    /// There are more than 1,024 roots, or more than 4,096 prefixes in an image.
    #[error("too many prefixes")]
    TooMany,
    /// The first root whose length is not 1 to 128, or that has a bit set past its length.
    #[error("root {index} is no prefix")]
    BadRoot { index: u64 },
    /// The least second root that overlaps an earlier one, and the least such first. In an image the free prefixes are
    /// counted from 0, and then the doubtful ones.
    #[error("root {second} overlaps root {first}")]
    Overlap { first: u64, second: u64 },
    /// There is no memory for the pool.
    #[error("out of memory")]
    OutOfMemory,
}

/// Why a prefix isn't gained, in the order of the tests.
#[derive(Clone, Copy, Debug, PartialEq, Eq)]
pub enum GainFault {
    /// It overlaps this entry: of those that it overlaps the one of least address, then of least length.
    Overlaps { kept: Prefix },
    /// It overlaps none, and there is no room for another entry.
    Full,
}
