//! How a node that serves ended.

use grasp_store::KeepFault;

/// How serving ended.
#[derive(Clone, Copy, Debug, PartialEq, Eq)]
pub enum ServiceEnd {
    /// A visitor stopped the node.
    Stopped,
    /// There was no memory.
    OutOfMemory,
    /// The store has a fault. Nothing was sent behind it.
    StoreFault { fault: KeepFault },
    /// The links couldn't be opened.
    LinkFault,
    /// The desk couldn't be opened.
    DeskFault,
}
