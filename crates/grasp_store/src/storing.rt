//! A body that is put into a slot.

ghost use Rattle.std.specs.Prelude.{◌≤◌, ◌<◌, ◌+◌, ◌-◌, length, OnOk, OnErr};
ghost use Rattle.grasp_io.specs.Faults.{Rose};
ghost use Rattle.grasp_disk.specs.Calls.{DiskLog, after_made, disk_size};
ghost use Rattle.grasp_store.specs.Asking.{BreaksIn};
ghost use Rattle.grasp_store.specs.Saving.{closing_calls, filling_calls, put_calls, store_calls};
ghost use Rattle.grasp_store.specs.Slots.{body_size};

use crate::place::Place;
use grasp_disk::Disk;
use grasp_io::Failed;

/// Writes bytes, and syncs.
fn put<D: Disk>(disk: &mut D, at: u64, bytes: &[u8]) -> Result<(), Failed>
    requires { at + length bytes.now ≤ disk_size }
    ensures done { OnOk result ((log : DiskLog) → D.stands disk.old log → D.stands disk.new (after_made log (put_calls at bytes.now))) }
    ensures failed { OnErr result ((log : DiskLog) → D.stands disk.old log → BreaksIn (D.stands disk.new) log (put_calls at bytes.now)) }
    ensures fault { OnErr result (Rose (D.faults disk.old) (D.faults disk.new)) }
    ensures never_falls { D.faults disk.old ≤ D.faults disk.new }
{
    disk.write(at, bytes)?;
    disk.sync()?;
    Ok(())
}

/// Closes a slot, where it is open.
fn clear<D: Disk>(disk: &mut D, place: Place, is_open: bool) -> Result<(), Failed>
    ensures done { OnOk result ((log : DiskLog) → D.stands disk.old log → D.stands disk.new (after_made log (closing_calls place is_open))) }
    ensures failed { OnErr result ((log : DiskLog) → D.stands disk.old log → BreaksIn (D.stands disk.new) log (closing_calls place is_open)) }
    ensures fault { OnErr result (Rose (D.faults disk.old) (D.faults disk.new)) }
    ensures never_falls { D.faults disk.old ≤ D.faults disk.new }
{
    if !is_open {
        return Ok(());
    }
    put(disk, place.gate(), &[0])
}

/// Fills a slot that is closed, and opens it.
fn fill<D: Disk>(disk: &mut D, place: Place, body: &[u8]) -> Result<(), Failed>
    requires { length body.now ≤ body_size }
    ensures done { OnOk result ((log : DiskLog) → D.stands disk.old log → D.stands disk.new (after_made log (filling_calls place body.now))) }
    ensures failed { OnErr result ((log : DiskLog) → D.stands disk.old log → BreaksIn (D.stands disk.new) log (filling_calls place body.now)) }
    ensures fault { OnErr result (Rose (D.faults disk.old) (D.faults disk.new)) }
    ensures never_falls { D.faults disk.old ≤ D.faults disk.new }
{
    put(disk, place.gate() + 1, body)?;
    put(disk, place.gate(), &[1])
}

/// Puts a body into a slot: closes it where it is open, fills it, and opens it.
pub(crate) fn store<D: Disk>(
    disk: &mut D,
    place: Place,
    is_open: bool,
    body: &[u8],
) -> Result<(), Failed>
    requires { length body.now ≤ body_size }
    ensures done { OnOk result ((log : DiskLog) → D.stands disk.old log → D.stands disk.new (after_made log (store_calls place is_open body.now))) }
    ensures failed { OnErr result ((log : DiskLog) → D.stands disk.old log → BreaksIn (D.stands disk.new) log (store_calls place is_open body.now)) }
    ensures fault { OnErr result (Rose (D.faults disk.old) (D.faults disk.new)) }
    ensures never_falls { D.faults disk.old ≤ D.faults disk.new }
{
    clear(disk, place, is_open)?;
    fill(disk, place, body)
}
