//! What a discovery message or a flood is known by.

use crate::{Address, Plain};

/// What a discovery message or a flood is known by: the session number that its initiator drew, and the initiator's
/// address (RFC 8990, section 2.7).
#[derive(Clone, Copy, Debug, PartialEq, Eq, Hash)]
pub struct Origin {
    /// The session number.
    pub session: u32,
    /// The node that began it.
    pub initiator: Address,
}

impl Plain for Origin {
    ghost use Rattle.std.proofs.Common.{rules};

    ghost clones_are_same = { Prim.search rules };
}
