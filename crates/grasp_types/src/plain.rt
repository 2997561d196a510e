//! Copies.

ghost use Rattle.std.specs.Prelude.{◌≡◌, IfOk};

use grasp_cbor::{Chars, Octets, OutOfMemory};

/// A type whose clones are, as contracts see them, the value that they are made of.
pub trait Plain: Clone {
    ghost clones_are_same: { (x : Self) (y : Self) → Self.is_clone x y → y ≡ x };

    /// Another of the same value.
    final fn copy(&self) -> Result<Self, OutOfMemory>
        ensures { IfOk result (λ r. r ≡ self.now) }
    {
        Ok(self.clone()?)
    }
}

impl Plain for Octets {
    ghost clones_are_same = { λ a b e. e };
}

impl Plain for Chars {
    ghost clones_are_same = { λ a b e. e };
}

impl<T: Plain> Plain for Option<T> {
    ghost use Rattle.std.proofs.Common.{rules};

    ghost clones_are_same = { Prim.search (rules, T.clones_are_same) };
}
