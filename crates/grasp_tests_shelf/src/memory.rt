//! A shelf with a store in memory.

use crate::pools::{ROOT, ask_before, hand_back, is_handed_back, is_whole};
use grasp_agent::PrefixAgent;
use grasp_cbor::Chars;
use grasp_disk::{Disk, Left, MemDisk};
use grasp_shelf::{MemStore, Shelf, ShelfFault};
use grasp_store::{KeepFault, Keeper};
use std::alloc::Global;
use std::test::Fail;

/// A keeper of a new disk, and its agent, which has the root.
fn keeper(alloc: Global) -> Option<(Keeper<MemDisk>, PrefixAgent)> {
    Keeper::open(alloc, MemDisk::new(alloc).ok()?, &[ROOT]).ok()
}

/// A disk on which the image of that agent was saved.
fn saved(alloc: Global) -> Option<MemDisk> {
    let (mut keeper, agent) = keeper(alloc)?;
    keeper.save(&agent).ok()?;
    Some(keeper.close())
}

/// A disk on which both slots are open, under one number.
fn spoilt(alloc: Global) -> Option<MemDisk> {
    let mut disk = MemDisk::new(alloc).ok()?;
    disk.write(0, &[1]).ok()?;
    disk.write(70_000, &[1]).ok()?;
    Some(disk)
}

/// A disk on which an image was saved, and which fails after so many calls.
fn stopping(alloc: Global, calls: u64) -> Option<MemDisk> {
    let mut disk = saved(alloc)?;
    disk.stop_after(calls);
    Some(disk)
}

/// A shelf with a store on this disk.
fn shelf_on(disk: MemDisk) -> Shelf<MemStore> {
    Shelf::new(MemStore::new(disk))
}

/// Opens the store of a shelf.
fn open(alloc: Global, shelf: &mut Shelf<MemStore>) -> Result<PrefixAgent, ShelfFault> {
    shelf.open(alloc, &Chars::new(alloc))
}

/// Why a shelf with a store on this disk doesn't open it: the answer, where `why` says the same.
fn refused(alloc: Global, disk: MemDisk) -> Option<ShelfFault> {
    let mut shelf = shelf_on(disk);
    let fault = open(alloc, &mut shelf).err();
    if shelf.why() == fault { fault } else { None }
}

/// The disk of a shelf after a crash.
fn crashed(shelf: Shelf<MemStore>) -> Option<MemDisk> {
    let mut disk = shelf.into_store()?.into_disk();
    disk.crash(Left::Old);
    Some(disk)
}

/// The shelf opens what was saved, and is asked around a call of its agent.
fn kept(alloc: Global) -> Option<Shelf<MemStore>> {
    let mut shelf = shelf_on(saved(alloc)?);
    let mut agent = open(alloc, &mut shelf).ok()?;
    if !is_whole(&agent) {
        return None;
    }
    hand_back(&mut agent)?;
    ask_before(&mut shelf, &agent)?;
    shelf.after(&agent).ok()?;
    Some(shelf)
}

/// What it keeps so comes back after a crash.
fn comes_back(alloc: Global) -> Option<bool> {
    let mut shelf = shelf_on(crashed(kept(alloc)?)?);
    let agent = open(alloc, &mut shelf).ok()?;
    Some(is_handed_back(&agent))
}

/// What a shelf answers behind a call of its agent, and behind the next one, where its disk fails behind the opening.
fn faults(alloc: Global) -> Option<(KeepFault, KeepFault)> {
    let mut shelf = shelf_on(stopping(alloc, 3)?);
    let mut agent = open(alloc, &mut shelf).ok()?;
    hand_back(&mut agent)?;
    Some((shelf.after(&agent).err()?, shelf.after(&agent).err()?))
}

/// Why a store that is open isn't opened again.
fn opened_twice(alloc: Global) -> Option<ShelfFault> {
    let mut shelf = shelf_on(saved(alloc)?);
    open(alloc, &mut shelf).ok()?;
    open(alloc, &mut shelf).err()
}

/// A store is opened with what was saved there, and has the pool of behind a call after a crash.
#[test]
fn a_pool_comes_back(rt: HostRuntime) -> Result<(), Fail> {
    assert!(rt; comes_back(rt.alloc()) == Some(true));
    Ok(())
}

/// A disk that fails is told once, and asked nothing more.
#[test]
fn a_fault_is_told(rt: HostRuntime) -> Result<(), Fail> {
    assert!(rt;
        matches!(
            faults(rt.alloc()),
            Some((KeepFault::DiskFault, KeepFault::Stopped))
        )
    );
    Ok(())
}

/// A store without an image isn't opened, nor one with two images of one number, one whose disk fails, or one that is open.
#[test]
fn stores_are_refused(rt: HostRuntime) -> Result<(), Fail> {
    let empty = refused(rt.alloc(), MemDisk::new(rt.alloc())?);
    let bad = refused(rt.alloc(), spoilt(rt.alloc()).ok_or("a disk")?);
    let failed = refused(rt.alloc(), stopping(rt.alloc(), 0).ok_or("a disk")?);
    assert!(rt; empty == Some(ShelfFault::Empty));
    assert!(rt; bad == Some(ShelfFault::BadImage { slot: 1 }));
    assert!(rt; failed == Some(ShelfFault::DiskFault));
    assert!(rt; opened_twice(rt.alloc()) == Some(ShelfFault::Unopened));
    Ok(())
}
