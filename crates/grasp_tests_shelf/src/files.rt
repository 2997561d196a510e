//! A shelf with a store in a file.

use crate::pools::{ROOT, hand_back, is_handed_back, is_whole};
use grasp_agent::PrefixAgent;
use grasp_cbor::Chars;
use grasp_disk::Disk;
use grasp_file_disk::{FileDisk, FileFault, FileStore, StoreFile};
use grasp_shelf::Shelf;
use std::fs;
use std::test::Fail;

/// Makes a store at this path, with the image of the root.
fn make(rt: &HostRuntime, path: &str) -> Option<()> {
    FileStore::create(rt, rt.alloc(), path, &[ROOT]).ok()?;
    Some(())
}

/// Opens the store at this path.
fn open(
    rt: &HostRuntime,
    shelf: &mut Shelf<StoreFile<&HostRuntime>>,
    path: &str,
) -> Option<PrefixAgent> {
    let path = Chars::of(rt.alloc(), path).ok()?;
    shelf.open(rt.alloc(), &path).ok()
}

/// Why the file at the path isn't opened.
fn refused(rt: &HostRuntime, path: &str) -> Option<FileFault> {
    let mut shelf = Shelf::new(StoreFile::new(rt));
    match open(rt, &mut shelf, path) {
        Some(_) => None,
        None => shelf.into_store()?.why(),
    }
}

/// Opens the store that has the root, sees that nobody else opens it, and keeps another pool in it.
fn keep(rt: &HostRuntime, path: &str) -> Option<bool> {
    let mut shelf = Shelf::new(StoreFile::new(rt));
    let mut agent = open(rt, &mut shelf, path)?;
    let whole = is_whole(&agent);
    let busy = refused(rt, path) == Some(FileFault::Busy);
    hand_back(&mut agent)?;
    shelf.after(&agent).ok()?;
    Some(whole && busy)
}

/// Whether that pool comes back.
fn comes_back(rt: &HostRuntime, path: &str) -> Option<bool> {
    let mut shelf = Shelf::new(StoreFile::new(rt));
    let agent = open(rt, &mut shelf, path)?;
    Some(is_handed_back(&agent))
}

/// Spoils a byte of the first slot's image.
fn spoil(rt: &HostRuntime, path: &str) -> Option<()> {
    FileDisk::open(rt, path).ok()?.write(9, &[48]).ok()
}

/// A store in a file has the image of its root, then what was saved last, and is opened by one at a time. A slot that is spoilt is
/// told.
#[test]
fn files_are_stores(rt: HostRuntime) -> Result<(), Fail> {
    const PATH: &str = "files_are_stores";
    let _ = fs::remove_file(&rt, PATH);
    assert!(rt; refused(&rt, PATH) == Some(FileFault::NoStore));
    make(&rt, PATH).ok_or("made")?;
    assert!(rt; keep(&rt, PATH) == Some(true));
    assert!(rt; comes_back(&rt, PATH) == Some(true));
    spoil(&rt, PATH).ok_or("spoilt")?;
    assert!(rt; refused(&rt, PATH) == Some(FileFault::Spoilt { slot: 0 }));
    fs::remove_file(&rt, PATH)?;
    Ok(())
}
