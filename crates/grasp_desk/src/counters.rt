//! What a desk counts.

/// What a desk counted. Each count ends at 2^64 - 1.
#[derive(Clone, Copy, Debug, PartialEq, Eq)]
pub struct DeskCounters {
    /// Visitors that came.
    pub came: u64,
    /// Connections that were closed at once, since as many visitors were there as may be.
    pub turned: u64,
    /// Lines that weren't told, since their visitor had left or didn't read.
    pub untold: u64,
}

/// A desk that counts what it does. Reading the counts changes nothing.
pub trait CountedDesk {
    /// What was counted.
    fn counters(&self) -> DeskCounters;
}
