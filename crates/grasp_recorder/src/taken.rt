//! What a node takes at an event.

use grasp_record::RecordInput;

/// What a node takes.
#[derive(Debug, Drop)]
pub(crate) struct Taken {
    /// The node.
    pub(crate) node: u8,
    /// What it takes.
    pub(crate) input: RecordInput,
}
