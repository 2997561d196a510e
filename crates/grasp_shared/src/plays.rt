//! The rule of the table, and the names of its steps.

ghost use Rattle.std.specs.Prelude.{Some};
ghost use Rattle.grasp_shared.specs.Calls.{LedTo};
ghost use Rattle.grasp_shared.specs.Law.{Ruled};
ghost use Rattle.grasp_shared.specs.Passes.{first, left, right, both, spent};
ghost use Rattle.grasp_shared.specs.Plays.{looked, won, ended, met};

use crate::calling::Calling;
use crate::view::View;
use atomic_table::{Join, Play, Split, TableRule};
use grasp_core::NodeCore;
use std::marker::PhantomData;
use std::snapshot::Snapshot;

/// The rule.
pub struct Law;

impl TableRule<NodeCore, View, Snapshot<NodeCore>> for Law {
    ghost holds = { λ key. Ruled LedTo (Some key.value) };

    ghost first = { λ key. first (Some key.value) };
}

/// A look at the turns.
pub struct Look;

impl Play<NodeCore, View> for Look {
    ghost then = { looked };
}

/// A try for the turn.
pub struct Win;

impl Play<NodeCore, View> for Win {
    ghost then = { won LedTo };
}

/// The end of a turn.
pub struct End<J> {
    of: PhantomData<J>,
}

impl<J: Calling> Play<NodeCore, View> for End<J> {
    ghost then = { ended J.call };
}

/// A new pass.
pub struct Cut;

impl Split<View> for Cut {
    ghost left = { left };

    ghost right = { right };
}

/// A pass that is taken back.
pub struct Glue;

impl Join<View> for Glue {
    ghost both = { both };

    ghost spent = { spent };
}

/// A look at what a join put together.
pub struct Meet;

impl Play<NodeCore, View> for Meet {
    ghost then = { met };
}
