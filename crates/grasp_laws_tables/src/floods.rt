//! What a node answers to a flood, and what is left of what floods told. These functions say nothing at run time.

ghost use Rattle.grasp_laws_tables.specs.Floods.{DropsTakeOne, FloodsAreKnown, FloodEndsAreLater, KnownFloodsRenew};

/// A flood is known exactly where it is remembered, and any other is new exactly where fewer than 256 are.
#[tactic(auto, using(crate::proofs::FloodLaws::floods_known))]
pub fn floods_are_known()
    ensures { FloodsAreKnown }
{}

/// A known flood renews what it told to the later of the two ends, and changes nothing else; one without a place changes
/// nothing; and after a new one no other is remembered than before, but for itself.
pub fn known_floods_renew()
    ensures { KnownFloodsRenew }
{}

/// Dropping a key drops what is kept under it, and nothing else.
pub fn drops_take_one()
    ensures { DropsTakeOne }
{}

/// What has a lifetime of 0 never ends, and anything else after its lifetime; the later of two ends is one of them, and
/// no earlier than either.
#[tactic(auto, using(crate::proofs::FloodLaws::ends_later))]
pub fn flood_ends_are_later()
    ensures { FloodEndsAreLater }
{}
