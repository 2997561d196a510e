//! A way to a neighbour.

/// A neighbour of this node, by the number of its link and its number there.
#[derive(Clone, Copy, Debug, PartialEq, Eq)]
pub struct Way {
    /// The number of the link.
    pub link: u8,
    /// The number of the neighbour on the link.
    pub to: u8,
}
