//! The keys of the cache's entries: names with initiators.

ghost use Rattle.std.specs.Prelude.{◌≡◌};
ghost use Rattle.grasp_flood.specs.Flood.{same_key, key_of};

use grasp_cbor::Chars;
use grasp_types::Address;

/// What an objective of a flood is kept under.
#[derive(Debug, Drop, PartialEq, Eq, Hash)]
pub struct FloodKey {
    /// The objective's name.
    pub name: Chars,
    /// The node that flooded it.
    pub initiator: Address,
}

impl FloodKey {
    /// Whether it has this name and this initiator.
    pub(crate) fn is(&self, name: &Chars, initiator: Address) -> bool
        ensures { result ≡ same_key (key_of name.now initiator) self.now }
    {
        *name == self.name && initiator == self.initiator
    }
}
