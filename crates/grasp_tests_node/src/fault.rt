//! Why a text is no table.
use grasp_cbor::OutOfMemory;
use grasp_core::PlanFault;
use grasp_text::WordFault;
use std::alloc::{AllocError, AllocFailed};

/// Why a table isn't run.
#[derive(Clone, Copy, Debug, PartialEq, Eq)]
pub enum TableFault {
    /// The line with this number, counted from 1, is none of a table.
    BadLine {
        /// Its number.
        line: u64,
    },
    /// There was no memory.
    OutOfMemory,
}

/// Why a line isn't run.
#[derive(Clone, Copy, Debug, PartialEq, Eq)]
pub enum LineFault {
    /// The line is none of a table.
    Bad,
    /// There was no memory.
    OutOfMemory,
}

impl LineFault {
    /// Why the table with this line isn't run.
    pub fn in_line(self, line: u64) -> TableFault {
        match self {
            LineFault::Bad => TableFault::BadLine { line },
            LineFault::OutOfMemory => TableFault::OutOfMemory,
        }
    }
}

impl From<WordFault> for LineFault {
    fn from(fault: WordFault) -> LineFault {
        match fault {
            WordFault::Unfit { .. } => LineFault::Bad,
            WordFault::OutOfMemory => LineFault::OutOfMemory,
        }
    }
}

impl From<PlanFault> for LineFault {
    fn from(fault: PlanFault) -> LineFault {
        match fault {
            PlanFault::BadPlan => LineFault::Bad,
            PlanFault::OutOfMemory => LineFault::OutOfMemory,
        }
    }
}

impl From<OutOfMemory> for LineFault {
    fn from(_: OutOfMemory) -> LineFault {
        LineFault::OutOfMemory
    }
}

impl From<AllocError> for LineFault {
    fn from(_: AllocError) -> LineFault {
        LineFault::OutOfMemory
    }
}

impl<T: Drop> From<AllocFailed<T>> for LineFault {
    fn from(_: AllocFailed<T>) -> LineFault {
        LineFault::OutOfMemory
    }
}
