//! Disks in memory that stop and crash.
ghost use Rattle.std.specs.Prelude.{◌≤◌, ◌+◌};
ghost use Rattle.grasp_disk.specs.Calls.{disk_size};

use grasp_disk::{Disk, DiskList, Left, MemDisk};
use grasp_io::Failed;
use std::alloc::Global;
use std::test::Fail;

const PLACE: u64 = 70_000;

/// The bytes from this place on, or nothing where the read fails.
fn read_at<D: Disk>(disk: &mut D, at: u64) -> Option<[u8; 5]>
    requires { at + 5 ≤ disk_size }
{
    let mut bytes = [9; 5];
    match disk.read(at, &mut bytes) {
        Ok(()) => Some(bytes),
        Err(Failed) => None,
    }
}

/// What is read after a crash of a disk on which 'hello' is synced, and these are written then.
fn crashed(alloc: Global, writes: &[&[u8; 5]], left: Left) -> Result<Option<[u8; 5]>, Fail> {
    let mut disk = MemDisk::new(alloc)?;
    disk.write(PLACE, b"hello")?;
    disk.sync()?;
    for bytes in writes {
        disk.write(PLACE, *bytes)?;
    }
    disk.crash(left);
    Ok(read_at(&mut disk, PLACE))
}

#[test]
fn crashes_differ_on_unsynced_writes(rt: HostRuntime) -> Result<(), Fail> {
    for (left, once, twice) in [
        (Left::Old, b"hello", b"hello"),
        (Left::New, b"world", b"again"),
        (Left::Torn, b"wollo", b"agrld"),
    ] {
        let alloc = rt.alloc();
        assert_eq!(rt; crashed(alloc, &[], left)?, Some(*b"hello"), "{left:?}");
        assert_eq!(rt; crashed(alloc, &[b"world"], left)?, Some(*once), "{left:?}");
        assert_eq!(rt;
            crashed(alloc, &[b"world", b"again"], left)?,
            Some(*twice),
            "{left:?} of two"
        );
    }
    Ok(())
}

#[test]
fn a_disk_stops_until_it_crashes(rt: HostRuntime) -> Result<(), Fail> {
    let mut disk = MemDisk::new(rt.alloc())?;
    disk.stop_after(3);
    assert_eq!(rt; read_at(&mut disk, 139_995), Some([0; 5]));
    disk.write(PLACE, b"hello")?;
    disk.sync()?;
    assert_eq!(rt; read_at(&mut disk, PLACE), None);
    assert_eq!(rt; disk.write(PLACE, b"world"), Err(Failed));
    assert_eq!(rt; disk.sync(), Err(Failed));
    disk.crash(Left::New);
    assert_eq!(rt; read_at(&mut disk, PLACE), Some(*b"hello"));
    Ok(())
}

#[test]
fn disks_in_a_list(rt: HostRuntime) -> Result<(), Fail> {
    let mut disks = DiskList::new(rt.alloc());
    for bytes in [b"first", b"other"] {
        let mut disk = MemDisk::new(rt.alloc())?;
        disk.write(PLACE, bytes)?;
        disks.push(disk)?;
    }
    assert_eq!(rt; disks.len(), 2);
    for (mut disk, bytes) in disks.into_vec().into_iter().zip([b"first", b"other"]) {
        assert_eq!(rt; read_at(&mut disk, PLACE), Some(*bytes));
    }
    Ok(())
}
