//! What a crash leaves of a disk in memory.

/// What a crash leaves of the writes that no sync came after.
#[derive(Clone, Copy, Debug, PartialEq, Eq)]
pub enum Left {
    /// None of them.
    Old,
    /// All of them.
    New,
    /// All but the second half of the last one. Of an odd number of bytes the first half is the smaller one.
    Torn,
}
