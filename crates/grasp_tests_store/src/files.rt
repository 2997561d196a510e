//! Tests of files of the machine.

use grasp_disk::Disk;
use grasp_file_disk::{FileDisk, FileFault, FileStore, StoreFault};
use grasp_pool::RootPrefix;
use std::fs;
use std::fs::File;
use std::test::Fail;

/// The bytes on both sides of each gate are read as they were written, also by the next who opens the file. It is opened once
/// at a time.
#[test]
fn bytes_come_back(rt: HostRuntime) -> Result<(), Fail> {
    const PATH: &str = "bytes_come_back";
    let _ = fs::remove_file(&rt, PATH);
    assert!(rt; matches!(FileDisk::open(&rt, PATH), Err(FileFault::NoStore)));
    let mut disk = FileDisk::create(&rt, PATH).map_err(|_| "made")?;
    assert!(rt; matches!(FileDisk::open(&rt, PATH), Err(FileFault::Busy)));
    assert!(rt; disk.write(0, b"xyz").is_ok());
    assert!(rt; disk.write(69_998, b"abcde").is_ok());
    assert!(rt; disk.write(139_999, b"z").is_ok());
    assert!(rt; disk.sync().is_ok());
    drop(disk);
    let mut disk = FileDisk::open(&rt, PATH).map_err(|_| "opened")?;
    let mut first = [1; 4];
    assert!(rt; disk.read(0, &mut first).is_ok());
    assert_eq!(rt; first, *b"xyz\0");
    let mut middle = [1; 7];
    assert!(rt; disk.read(69_997, &mut middle).is_ok());
    assert_eq!(rt; middle, *b"\0abcde\0");
    let mut last = [1; 2];
    assert!(rt; disk.read(139_998, &mut last).is_ok());
    assert_eq!(rt; last, *b"\0z");
    drop(disk);
    fs::remove_file(&rt, PATH)?;
    Ok(())
}

/// A store keeps the image of its roots. A file that is there is never made anew, and one that is short or empty is no store.
#[test]
fn stores_come_back(rt: HostRuntime) -> Result<(), Fail> {
    const PATH: &str = "stores_come_back";
    let roots = [RootPrefix {
        address: 0x2001_0db8 << 96,
        length: 48,
    }];
    let _ = fs::remove_file(&rt, PATH);
    assert!(rt;
        matches!(
            FileStore::open(&rt, rt.alloc(), PATH),
            Err(StoreFault::File(FileFault::NoStore))
        )
    );
    let store = FileStore::create(&rt, rt.alloc(), PATH, &roots).map_err(|_| "made")?;
    drop(store);
    assert!(rt;
        matches!(
            FileStore::create(&rt, rt.alloc(), PATH, &roots),
            Err(StoreFault::File(FileFault::Exists))
        )
    );
    let store = FileStore::open(&rt, rt.alloc(), PATH).map_err(|_| "opened")?;
    let prefix = store.agent.pool().free(0).ok_or("a prefix")?;
    assert_eq!(rt; prefix.address(), 0x2001_0db8 << 96);
    assert_eq!(rt; prefix.length(), 48);
    assert!(rt; store.agent.pool().free(1).is_none());
    drop(store);
    fs::remove_file(&rt, PATH)?;
    let _short = File::create_new(&rt, PATH)?;
    assert!(rt;
        matches!(
            FileStore::open(&rt, rt.alloc(), PATH),
            Err(StoreFault::File(FileFault::NoStore))
        )
    );
    fs::remove_file(&rt, PATH)?;
    let disk = FileDisk::create(&rt, PATH).map_err(|_| "made")?;
    drop(disk);
    assert!(rt;
        matches!(
            FileStore::open(&rt, rt.alloc(), PATH),
            Err(StoreFault::Empty)
        )
    );
    fs::remove_file(&rt, PATH)?;
    Ok(())
}
