//! The two slots of a disk.

ghost use Rattle.std.specs.Prelude.{◌≡◌};
ghost use Rattle.grasp_store.specs.Saving.{next_place};
ghost use Rattle.grasp_store.specs.Slots.{gate_of, other};

/// A slot of a disk: the first begins at 0, the second at 70,000.
#[derive(Clone, Copy, Debug, PartialEq, Eq)]
pub enum Place {
    First,
    Second,
}

impl Place {
    /// Where its gate stands; what it holds is behind that.
    pub(crate) fn gate(self) -> u64
        ensures { result ≡ gate_of self }
    {
        match self {
            Place::First => 0,
            Place::Second => 70_000,
        }
    }

    /// The other slot.
    pub(crate) fn other(self) -> Place
        ensures { result ≡ other self }
    {
        match self {
            Place::First => Place::Second,
            Place::Second => Place::First,
        }
    }
}

/// The slot that is filled next: the one that isn't current.
pub(crate) fn next_place(current: Option<Place>) -> Place
    ensures { result ≡ next_place current }
{
    match current {
        Some(place) => place.other(),
        None => Place::First,
    }
}
