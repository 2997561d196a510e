//! Why a text is no table.
use std::alloc::{AllocError, AllocFailed};

#[derive(Clone, Copy, Debug, PartialEq, Eq)]
pub enum TableFault {
    /// The line with this number, counted from 1, is none of a table.
    BadLine { line: u64 },
    /// There was no memory.
    OutOfMemory,
}

impl From<AllocError> for TableFault {
    fn from(_: AllocError) -> TableFault {
        TableFault::OutOfMemory
    }
}

impl<T: Drop> From<AllocFailed<T>> for TableFault {
    fn from(_: AllocFailed<T>) -> TableFault {
        TableFault::OutOfMemory
    }
}
