//! Laws of what a node sends on. They say nothing at run time.

ghost use Rattle.grasp_laws_node.specs.Relays.{MemoriesStay, RelaysAreOnce, WaysAreAll, WaysAreDistinct};

/// A discovery and a flood are sent on only where they weren't remembered and are then, whole, to other links, with the
/// loop count less by one and never with 0. No other input adds datagrams but a call that begins a search or a flood.
#[tactic(auto, using(crate::proofs::Remembered::relays_once))]
pub fn relays_are_once()
    ensures { RelaysAreOnce }
{}

/// No step takes the memory of a discovery or of a flood away before its end.
#[tactic(auto, using(crate::proofs::Remembered::memories_stay))]
pub fn memories_stay()
    ensures { MemoriesStay }
{}

/// The ways to all neighbours differ, and are those to each neighbour of each link.
pub fn ways_are_distinct()
    ensures distinct { WaysAreDistinct }
    ensures all { WaysAreAll }
{}
