//! Lists of at least one value.

ghost use Rattle.std.specs.Prelude.{◌≡◌, ◌<◌, ◌≤◌, ◌^◌, [], ◌∷◌, ◌++◌, length, slice_get, option_map, OnOk, OnErr, IfOk};
ghost use Rattle.std.specs.Borrow.{sem};
ghost use Rattle.grasp_types.specs.Lends.{lends_of_some};

use crate::Plain;
use grasp_cbor::OutOfMemory;
use std::alloc::{AllocError, Global};
use std::marker::Model;

/// The greatest length of a list of at least one value. Values that have a size never come to it.
const MOST: u64 = 0x7fff_ffff_ffff_ffff;

/// One or more values in order, which contracts see as a list.
#[derive(Debug, Drop)]
pub struct NonEmpty<T> {
    held: Vec<T>,
}

impl<T> Model for NonEmpty<T> {
    ghost use Rattle.std.specs.Prelude.{List, length, ◌≤◌, ◌<◌, ◌^◌};
    ghost use Rattle.std.specs.Coded.{coded_list};

    ghost Value = { List T };

    ghost coded = { coded_list T.code };

    ghost view = { λ a. a.held.items };

    ghost invariant = { λ a. (1 ≤ length a.held.items) × (length a.held.items < 2 ^ 63) };
}

impl<T> NonEmpty<T> {
    /// How many values there are, at least 1.
    pub fn len(&self) -> u64
        ensures value { result ≡ length self.now }
        ensures some { 1 ≤ result }
        ensures few { result < 2 ^ 63 }
    {
        self.held.len() as u64
    }

    /// The values.
    pub fn slice(&self) -> &[T]
        ensures value { result.now ≡ self.now }
        ensures some { 1 ≤ length self.now }
    {
        &self.held
    }

    /// The value at this place, counted from 0, or `None` past the end.
    pub fn at(&self, i: u64) -> Option<&T>
        ensures { option_map (λ x. x.now) result ≡ slice_get self.now i }
    {
        self.held.get(i as usize)
    }

    /// The value at this place, to be changed, or `None` past the end.
    pub fn at_mut(&mut self, i: u64) -> Option<&mut T>
        ensures* writes_back { sem 𝓛 (lends_of_some T.row self.entry i result) }
        ensures value { option_map (λ x. x.now) result ≡ slice_get self.old i }
    {
        self.held.get_mut(i as usize)
    }
}

impl<T: Drop> NonEmpty<T> {
    /// This one value.
    pub fn of(alloc: Global, first: T) -> Result<NonEmpty<T>, OutOfMemory>
        ensures { IfOk result (λ r. r ≡ first ∷ []) }
    {
        let mut held = Vec::new(alloc);
        held.push(first)?;
        Ok(NonEmpty { held })
    }

    /// Adds a value at the end. After an `Err` the list is as before.
    pub fn push(&mut self, next: T) -> Result<(), OutOfMemory>
        ensures ok { OnOk result (self.new ≡ self.old ++ next ∷ []) }
        ensures err { OnErr result (self.new ≡ self.old) }
    {
        if self.held.len() as u64 >= MOST {
            return Err(OutOfMemory);
        }
        self.held.push(next)?;
        Ok(())
    }
}

impl<T: Plain> Clone for NonEmpty<T> {
    ghost is_clone = { λ a b. b ≡ a };

    fn clone(&self) -> Result<NonEmpty<T>, AllocError> {
        Ok(NonEmpty {
            held: self.held.clone()?,
        })
    }
}

impl<T: Plain> Plain for NonEmpty<T> {
    ghost clones_are_same = { λ a b e. e };
}
