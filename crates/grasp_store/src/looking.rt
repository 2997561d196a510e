//! Which of two slots is current.

ghost use Rattle.std.specs.Prelude.{◌≡◌, IfOk, IfErr, length};
ghost use Rattle.grasp_store.specs.Looking.{IsNumbered, IsNewer, IsSpoilt, IsPosition, IsBadPair};
ghost use Rattle.grasp_store.specs.Slots.{slot_of, slot_size};
ghost use Rattle.grasp_store.specs.declared.fault.OpenFault.TheVariants as open_fault;

use crate::fault::OpenFault;
use crate::place::Place;
use crate::slot::{is_good, number};

/// Which slot is current, whether the one that is filled next is open, and the number of the current one.
#[derive(Clone, Copy)]
pub(crate) struct Position {
    pub(crate) current: Option<Place>,
    pub(crate) behind: bool,
    pub(crate) number: u64,
}

/// The number of a slot, where it is open and a pool can have its image. An open slot whose image no pool can have is bad.
fn numbered(slot: &[u8], place: u8) -> Result<Option<u64>, OpenFault>
    requires { length slot.now ≡ slot_size }
    ensures good { IfOk result (λ n. IsNumbered (slot_of slot.now) n) }
    ensures bad { IfErr result (λ fault. IsSpoilt (slot_of slot.now) × (fault ≡ open_fault.BadImage place)) }
{
    if slot[0] != 1 {
        return Ok(None);
    }
    let body = &slot[1..];
    if !is_good(body) {
        return Err(OpenFault::BadImage { slot: place });
    }
    Ok(Some(number(body)))
}

/// The position of two open slots with these numbers.
fn newer(first: u64, second: u64) -> Result<Position, OpenFault>
    ensures found { IfOk result (λ position. IsNewer first second position) }
    ensures bad { IfErr result (λ fault. (first ≡ second) × (fault ≡ open_fault.BadImage 1)) }
{
    if first == second {
        return Err(OpenFault::BadImage { slot: 1 });
    }
    if first < second {
        Ok(Position {
            current: Some(Place::Second),
            behind: true,
            number: second,
        })
    } else {
        Ok(Position {
            current: Some(Place::First),
            behind: true,
            number: first,
        })
    }
}

/// The position of two slots.
pub(crate) fn look(first: &[u8], second: &[u8]) -> Result<Position, OpenFault>
    requires first { length first.now ≡ slot_size }
    requires second { length second.now ≡ slot_size }
    ensures found { IfOk result (λ position. IsPosition (slot_of first.now) (slot_of second.now) position) }
    ensures bad { IfErr result (λ fault. IsBadPair (slot_of first.now) (slot_of second.now) fault) }
{
    let before = numbered(first, 0)?;
    let behind = numbered(second, 1)?;
    match (before, behind) {
        (None, None) => Ok(Position {
            current: None,
            behind: false,
            number: 0,
        }),
        (Some(number), None) => Ok(Position {
            current: Some(Place::First),
            behind: false,
            number,
        }),
        (None, Some(number)) => Ok(Position {
            current: Some(Place::Second),
            behind: false,
            number,
        }),
        (Some(before), Some(behind)) => newer(before, behind),
    }
}
