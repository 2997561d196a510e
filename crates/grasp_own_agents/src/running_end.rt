//! How a run of a node with its agents ends.

/// How a run ended.
#[derive(Clone, Copy, Debug, PartialEq, Eq)]
pub enum RunningEnd {
    /// All turns were made.
    Done,
    /// The links could not be opened.
    LinkFault,
    /// There was no memory for an agent's next call.
    OutOfMemory,
}
