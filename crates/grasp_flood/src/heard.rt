//! What becomes of a flood.

/// What a flood that came is to this node.
#[derive(Clone, Copy, Debug, PartialEq, Eq)]
pub enum Heard {
    /// It is remembered: it renewed what it had told, and isn't sent on.
    Known,
    /// 256 floods are remembered: it is dropped.
    NoPlace,
    /// It is remembered from now on, and what it told is kept.
    New,
}
