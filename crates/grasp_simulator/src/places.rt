//! The places of handles that nodes gave.

ghost use Rattle.std.specs.Prelude.{◌≡◌, ◌++◌, [], find, option_map, OnOk};
ghost use Rattle.grasp_simulator.specs.PlacesStand.{PlacesStand, is_place_of, place_found, handle_in, places_in};

use grasp_cbor::OutOfMemory;
use grasp_types::{ApiAnswer, Handle, List, Reply};
use std::alloc::Global;

/// A handle that was given in a life of a node: its number, and its place.
#[derive(Clone, Copy, Debug, PartialEq, Eq)]
pub(crate) struct GivenPlace {
    pub(crate) life: u64,
    pub(crate) number: u64,
    pub(crate) place: u32,
}

impl GivenPlace {
    /// Whether it was given in this life with this number.
    fn is_of(&self, life: u64, number: u64) -> bool
        ensures { result ≡ is_place_of life number self.now }
    {
        self.life == life && self.number == number
    }
}

/// The handles that were given, oldest first.
#[derive(Drop)]
pub(crate) struct Places {
    given: List<GivenPlace>,
}

impl Places {
    /// None was given.
    pub(crate) fn new(alloc: Global) -> Places
        ensures { PlacesStand result [] }
    {
        Places {
            given: List::new(alloc),
        }
    }

    /// The node replied so in this life, perhaps with a handle that it gives. After an `Err` nothing is said of the handles.
    pub(crate) fn note(&mut self, life: u64, reply: &Reply) -> Result<(), OutOfMemory>
        ensures { OnOk result (self.new.given ≡ self.old.given ++ places_in life reply.now) }
    {
        if let Some(handle) = handle_in(reply) {
            self.given.push(GivenPlace {
                life,
                number: handle.number,
                place: handle.place,
            })?;
        }
        Ok(())
    }

    /// The handle with this number that was given in this life.
    fn given(&self, life: u64, number: u64) -> Option<&GivenPlace>
        ensures { option_map (λ given. given.now) result ≡ find (is_place_of life number) self.now.given }
    {
        self.given
            .slice()
            .iter()
            .find(|given| given.is_of(life, number))
    }

    /// The place of the handle with this number that was given in this life, and 0 where none was.
    pub(crate) fn place(&self, life: u64, number: u64) -> u32
        ensures { result ≡ place_found self.now.given life number }
    {
        match self.given(life, number) {
            Some(given) => given.place,
            None => 0,
        }
    }
}

/// The handle that the reply gives.
fn handle_in(reply: &Reply) -> Option<Handle>
    ensures { result ≡ handle_in reply.now }
{
    match reply {
        Reply::Api(ApiAnswer::Started(handle)) => Some(*handle),
        Reply::Api(ApiAnswer::Incoming { handle, .. }) => Some(*handle),
        _ => None,
    }
}
