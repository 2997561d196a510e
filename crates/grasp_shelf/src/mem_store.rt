//! A store in memory.
ghost use Rattle.std.specs.Prelude.{◌≡◌};
ghost use Rattle.grasp_disk.specs.Memory.{MemStands};

use crate::store::Store;
use grasp_cbor::Chars;
use grasp_disk::{Disk, MemDisk};
use grasp_io::Failed;

/// A disk in memory that stands at each path.
#[derive(Drop)]
pub struct MemStore {
    disk: MemDisk,
}

impl MemStore {
    /// The store on this disk.
    pub fn new(disk: MemDisk) -> MemStore
        ensures { result.disk ≡ disk }
    {
        MemStore { disk }
    }

    /// Its disk.
    pub fn into_disk(self) -> MemDisk
        ensures { result ≡ self.disk }
    {
        self.disk
    }
}

impl Disk for MemStore {
    ghost stands = { λ m log. MemStands m.disk log };

    ghost faults = { λ m. m.disk.faults };

    fn read(&mut self, at: u64, into: &mut [u8]) -> Result<(), Failed> {
        self.disk.read(at, into)
    }

    fn write(&mut self, at: u64, bytes: &[u8]) -> Result<(), Failed> {
        self.disk.write(at, bytes)
    }

    fn sync(&mut self) -> Result<(), Failed> {
        self.disk.sync()
    }
}

impl Store for MemStore {
    fn open(&mut self, _path: &Chars) -> Result<(), Failed> {
        Ok(())
    }
}
