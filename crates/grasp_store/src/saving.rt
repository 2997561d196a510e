//! A save of the next image.

ghost use Rattle.std.specs.Prelude.{◌≡◌, ◌≤◌, ◌+◌, ◌<◌, ◌-◌, ◌^◌, IsErrOf, MatchResult, OnOk, Some, is_some, length, vec_capacity};
ghost use Rattle.grasp_disk.specs.Calls.{DiskLog, after_made};
ghost use Rattle.grasp_store.specs.Asking.{BreaksIn, IsNotPut};
ghost use Rattle.grasp_store.specs.Saving.{next_place, store_calls};
ghost use Rattle.grasp_store.specs.Slots.{body_of, body_size};
ghost use Rattle.grasp_store.specs.declared.fault.KeepFault.TheVariants as keep_fault;

use crate::fault::KeepFault;
use crate::image::KeptImage;
use crate::looking::Position;
use crate::place::next_place;
use crate::storing::store;
use grasp_disk::Disk;
use grasp_io::Failed;
use std::mem::swap;

/// Saves the next image, which becomes the current one.
pub(crate) fn save<D: Disk>(
    disk: &mut D,
    position: &mut Position,
    body: &mut Vec<u8>,
    image: &mut KeptImage,
    next: &mut KeptImage,
) -> Result<(), KeepFault>
    requires few { length next.old.free + length next.old.doubtful ≤ 4096 }
    requires room { body_size ≤ vec_capacity body.old }
    ensures done { OnOk result ((log : DiskLog) → D.stands disk.old log → D.stands disk.new (after_made log
        (store_calls (next_place position.old.current) position.old.behind (body_of (record { number = position.old.number + 1; image = next.old }))))) }
    ensures failed { IsErrOf result keep_fault.DiskFault → (log : DiskLog) → D.stands disk.old log → BreaksIn (D.stands disk.new) log
        (store_calls (next_place position.old.current) position.old.behind (body_of (record { number = position.old.number + 1; image = next.old }))) }
    ensures position { OnOk result (position.new ≡ record {
      current = Some (next_place position.old.current);
      behind = is_some position.old.current;
      number = position.old.number + 1;
    }) }
    ensures image { OnOk result (image.new ≡ next.old) }
    ensures answers { MatchResult result (λ _. position.old.number < 2 ^ 64 - 1)
        (λ fault. IsNotPut D.faults disk.old disk.new position.old.number fault) }
    ensures never_falls { D.faults disk.old ≤ D.faults disk.new }
    ensures room { body_size ≤ vec_capacity body.new }
{
    if position.number == u64::MAX {
        return Err(KeepFault::Spent);
    }
    let place = next_place(position.current);
    next.write(position.number + 1, body);
    match store(disk, place, position.behind, body) {
        Ok(()) => {}
        Err(Failed) => return Err(KeepFault::DiskFault),
    }
    position.behind = position.current.is_some();
    position.current = Some(place);
    position.number += 1;
    swap(image, next);
    Ok(())
}
