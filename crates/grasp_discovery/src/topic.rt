//! What is looked for.

ghost use Rattle.std.specs.Prelude.{◌≡◌};
ghost use Rattle.grasp_discovery.specs.Topic.{same_topic, topic_of, kind_of};

use grasp_cbor::Chars;
use grasp_types::{Flags, Kind, Plain};

/// An objective's name, and the use that it is looked for.
#[derive(Clone, Debug, Drop, PartialEq, Eq, Hash)]
pub(crate) struct Topic {
    pub(crate) name: Chars,
    pub(crate) kind: Kind,
}

impl Plain for Topic {
    ghost use Rattle.std.proofs.Common.{rules};

    ghost clones_are_same = { Prim.search rules };
}

impl Topic {
    /// Whether it has this name and this use.
    pub(crate) fn is(&self, name: &Chars, kind: Kind) -> bool
        ensures { result ≡ same_topic (topic_of name.now kind) self.now }
    {
        *name == self.name && kind == self.kind
    }
}

/// The use that a discovery looks for: negotiation, where F_NEG is set.
pub(crate) fn kind_of(flags: Flags) -> Kind
    ensures { result ≡ kind_of flags }
{
    if flags.has_neg() {
        Kind::Negotiation
    } else {
        Kind::Synchronization
    }
}
