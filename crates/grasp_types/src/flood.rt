//! Floods.

ghost use Rattle.std.specs.Prelude.{◌≡◌};
ghost use Rattle.std.proofs.Common.{rules};
ghost use Rattle.grasp_types.specs.Flood.{first_loops};

use crate::{Address, List, Locator, NonEmpty, Objective, Plain};

/// One objective of a flood, and where it can be reached.
#[derive(Clone, Debug, Drop)]
pub struct FloodPart {
    pub objective: Objective,
    pub locator: Option<Locator>,
}

/// One or more parts of a flood.
pub type FloodParts = NonEmpty<FloodPart>;

impl NonEmpty<FloodPart> {
    /// Sets the loop count of the first objective, which alone decides how far the flood goes.
    pub fn set_first_loops(&mut self, loops: u8)
        ensures { self.new ≡ first_loops self.old loops }
    {
        if let Some(part) = self.at_mut(0) {
            part.objective.loops = loops;
        }
    }
}

/// An objective that a flood told this node.
#[derive(Clone, Debug, Drop)]
pub struct FloodRead {
    /// The address of the node that flooded it.
    pub initiator: Address,
    pub objective: Objective,
    pub locator: Option<Locator>,
}

/// What floods told, in order.
pub type FloodReads = List<FloodRead>;

impl Plain for FloodPart {
    ghost clones_are_same = { Prim.search rules };
}

impl Plain for FloodRead {
    ghost clones_are_same = { Prim.search rules };
}
