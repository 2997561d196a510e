//! A keeper with a disk in memory.

use grasp_agent::Agent;
use grasp_disk::{Disk, Left, MemDisk};
use grasp_pool::RootPrefix;
use grasp_store::{KeepFault, Keeper, OpenFault, Unopened};
use grasp_types::{Locator, Prefix, Proto};
use std::test::Fail;

/// Where 2001:db8:: begins.
const FIRST: u128 = 0x2001_0db8 << 96;

/// An image is kept through a save that is cut short and a crash: seven free prefixes and one in doubt, which is given back.
#[test]
fn images_are_kept(rt: HostRuntime) -> Result<(), Fail> {
    let roots = [RootPrefix {
        address: FIRST,
        length: 48,
    }];
    let disk = MemDisk::new(rt.alloc())?;
    let (mut keeper, mut agent) = Keeper::open(rt.alloc(), disk, &roots).map_err(|_| "not opened")?;
    assert!(rt; keeper.after(&agent).is_ok());
    assert!(rt; !keeper.has_saved());
    let given = Prefix::of(FIRST, 56).ok_or("a prefix")?;
    let peer = Locator::V6 {
        address: 1,
        proto: Proto::Tcp,
        port: 7017,
    };
    assert!(rt; agent.hand_back(given, peer).is_ok());
    assert!(rt; keeper.after(&agent).is_ok());
    assert!(rt; keeper.has_saved());
    let call = agent.next()?;
    assert!(rt; keeper.before(&agent, &call).is_ok());
    let image = keeper.image(rt.alloc())?;
    assert_eq!(rt; image.free.len(), 8);
    assert_eq!(rt; image.doubtful.len(), 1);
    keeper.stop_after(3);
    assert!(rt; matches!(keeper.save(&agent), Err(KeepFault::DiskFault)));
    assert!(rt; matches!(keeper.after(&agent), Err(KeepFault::Stopped)));
    let mut disk = keeper.close();
    disk.crash(Left::Torn);
    let (keeper, agent) = Keeper::open(rt.alloc(), disk, &[]).map_err(|_| "not opened again")?;
    assert_eq!(rt; agent.pool().doubtful(0).ok_or("a prefix")?, given);
    assert!(rt; agent.pool().free(7).is_some());
    assert!(rt; keeper.has_saved());
    Ok(())
}

/// Two slots that are open with one number are told, and the disk comes back.
#[test]
fn bad_images_are_told(rt: HostRuntime) -> Result<(), Fail> {
    let mut disk = MemDisk::new(rt.alloc())?;
    assert!(rt; disk.write(0, &[1]).is_ok());
    assert!(rt; disk.write(70_000, &[1]).is_ok());
    let Unopened { disk: _, fault } = Keeper::open(rt.alloc(), disk, &[]).err().ok_or("opened")?;
    assert!(rt; matches!(fault, OpenFault::BadImage { slot: 1 }));
    Ok(())
}
