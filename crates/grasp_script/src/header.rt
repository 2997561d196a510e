//! Lines of a script's header.

use grasp_model_network::{Members, RootAt};

/// A line of a header behind those that tell how many nodes there are, and how long messages may be.
#[derive(Debug, Drop)]
pub enum HeaderLine {
    /// A prefix that a node holds from the beginning.
    Root(RootAt),
    /// The nodes on a link, in its order.
    Link(Members),
}
