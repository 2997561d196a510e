//! Why a conversation ended early.

/// Why a conversation ended before all was asked and answered.
#[derive(Clone, Copy, Debug, PartialEq, Eq)]
pub enum Ending {
    /// The node ended it.
    Ended,
    /// What the node says couldn't be read, or what it is asked couldn't be written.
    NodeFault,
    /// The input couldn't be read.
    InputFault,
    /// What the node said couldn't be written.
    WriteFault,
    /// There was no memory, or more lines came than can be counted.
    OutOfMemory,
}
