//! Lists of disks.
ghost use Rattle.std.specs.Prelude.{◌≡◌, [], ◌∷◌, ◌++◌, length, OnOk, OnErr};

use crate::MemDisk;
use grasp_cbor::OutOfMemory;
use std::alloc::Global;
use std::marker::Model;

/// Disks in memory, in order, which contracts see as a list.
#[derive(Drop)]
pub struct DiskList {
    held: Vec<MemDisk>,
}

impl Model for DiskList {
    ghost use Rattle.std.specs.Prelude.{List};
    ghost use Rattle.grasp_disk.specs.Memory.{MemDiskState};

    ghost Value = { List MemDiskState };

    ghost view = { λ a. a.held.items };
}

impl DiskList {
    /// No disks.
    pub fn new(alloc: Global) -> DiskList
        ensures { result ≡ [] }
    {
        DiskList {
            held: Vec::new(alloc),
        }
    }

    /// How many disks there are.
    pub fn len(&self) -> u64
        ensures { result ≡ length self.now }
    {
        self.held.len() as u64
    }

    /// Adds a disk at the end. After an `Err` the list is as before, and the disk is gone.
    pub fn push(&mut self, disk: MemDisk) -> Result<(), OutOfMemory>
        ensures ok { OnOk result (self.new ≡ self.old ++ disk ∷ []) }
        ensures err { OnErr result (self.new ≡ self.old) }
    {
        self.held.push(disk)?;
        Ok(())
    }

    /// The disks, to be taken one by one.
    pub fn into_vec(self) -> Vec<MemDisk>
        ensures { result.items ≡ self }
    {
        self.held
    }
}
