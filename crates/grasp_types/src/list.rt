//! Lists.

ghost use Rattle.std.specs.Prelude.{◌≡◌, [], ◌∷◌, ◌++◌, length, slice_get, option_map, OnOk, OnErr};
ghost use Rattle.std.specs.Borrow.{sem};
ghost use Rattle.grasp_types.specs.Lends.{lends_at};

use crate::Plain;
use grasp_cbor::OutOfMemory;
use std::alloc::{AllocError, Global};
use std::marker::Model;

/// Values in order, which contracts see as a list.
#[derive(Debug, Drop)]
pub struct List<T> {
    held: Vec<T>,
}

impl<T> Model for List<T> {
    ghost use Rattle.std.specs.Prelude.{List};
    ghost use Rattle.std.specs.Coded.{coded_list};

    ghost Value = { List T };

    ghost coded = { coded_list T.code };

    ghost view = { λ a. a.held.items };
}

impl<T> List<T> {
    /// No values.
    pub fn new(alloc: Global) -> List<T>
        ensures { result ≡ [] }
    {
        List {
            held: Vec::new(alloc),
        }
    }

    /// How many values there are.
    pub fn len(&self) -> u64
        ensures { result ≡ length self.now }
    {
        self.held.len() as u64
    }

    /// The values.
    pub fn slice(&self) -> &[T]
        ensures { result.now ≡ self.now }
    {
        &self.held
    }

    /// The value at this place, counted from 0, or `None` past the end.
    pub fn at(&self, i: u64) -> Option<&T>
        ensures { option_map (λ x. x.now) result ≡ slice_get self.now i }
    {
        self.held.get(i as usize)
    }

    /// The value at this place, to be changed, or `None` past the end.
    pub fn at_mut(&mut self, i: u64) -> Option<&mut T>
        ensures* writes_back { sem 𝓛 (lends_at T.row self.entry i result) }
        ensures value { option_map (λ x. x.now) result ≡ slice_get self.old i }
    {
        self.held.get_mut(i as usize)
    }
}

impl<T: Drop> List<T> {
    /// Adds a value at the end. After an `Err` the list is as before.
    pub fn push(&mut self, next: T) -> Result<(), OutOfMemory>
        ensures ok { OnOk result (self.new ≡ self.old ++ next ∷ []) }
        ensures err { OnErr result (self.new ≡ self.old) }
    {
        self.held.push(next)?;
        Ok(())
    }
}

impl<T: Plain> Clone for List<T> {
    ghost is_clone = { λ a b. b ≡ a };

    fn clone(&self) -> Result<List<T>, AllocError> {
        Ok(List {
            held: self.held.clone()?,
        })
    }
}

impl<T: Plain> Plain for List<T> {
    ghost clones_are_same = { λ a b e. e };
}
