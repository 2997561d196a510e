//! Why a keeper isn't opened, and why it keeps no image.

use grasp_pool::PoolFault;
use thiserror::Error;

/// Why a keeper keeps no image. After any of these it keeps none any more.
#[derive(Clone, Copy, Debug, PartialEq, Eq, Error)]
pub enum KeepFault {
    /// A call of the disk failed.
    #[error("the disk failed")]
    DiskFault,
    /// The number of the current image is the greatest that a slot can hold, 2^64 - 1.
    #[error("the number of saves is spent")]
    Spent,
    /// This keeper has answered a fault before. The disk isn't asked again.
    #[error("stopped by an earlier fault")]
    Stopped,
}

/// Why a disk isn't opened, in the order of the tests.
#[derive(Debug, Drop, PartialEq, Eq, Error)]
pub enum OpenFault {
    /// A call of the disk failed.
    #[error("the disk failed")]
    DiskFault,
    /// The first open slot, 0 or 1, whose prefixes aren't valid, overlap, or are more than 4,096 together; and slot 1 where both are
    /// open with one number.
    #[error("bad image in slot {slot}")]
    BadImage { slot: u8 },
    /// No slot is open, and the roots open no pool.
    #[error("{0}")]
    Roots(PoolFault),
    /// There is no memory for the keeper or the agent.
    #[error("out of memory")]
    OutOfMemory,
}

/// A disk that wasn't opened, and why.
#[derive(Debug, Drop)]
pub struct Unopened<D> {
    pub disk: D,
    pub fault: OpenFault,
}
