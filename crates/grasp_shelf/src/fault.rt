//! Why a store isn't opened.

/// Why a store isn't opened, in the order of the tests.
#[derive(Clone, Copy, Debug, PartialEq, Eq)]
pub enum ShelfFault {
    /// There is no store at the path, another has it open, or it was opened before.
    Unopened,
    /// A call of it failed.
    DiskFault,
    /// The first slot, 0 or 1, that is open and holds no image that a pool can have; slot 1 where both have one number.
    BadImage { slot: u8 },
    /// No image was ever saved in it.
    Empty,
    /// There is no memory for its keeper or the agent.
    OutOfMemory,
}
