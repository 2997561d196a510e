//! A store in a file that is opened by its path.

ghost use Rattle.std.specs.Prelude.{◌≡◌, ◌≤◌};
ghost use Rattle.grasp_io.specs.Faults.{Rose};

use crate::disk::{FileDisk, FileFault};
use grasp_cbor::Chars;
use grasp_disk::Disk;
use grasp_io::Failed;
use grasp_shelf::Store;
use std::fs::File;
use std::rt::Files;

/// A store in a file of the machine, which is opened by its path before anything is asked of it. It tells no content.
#[derive(Drop)]
pub struct StoreFile<R: Files<File = File> + Drop> {
    files: R,
    disk: Option<FileDisk>,
    why: Option<FileFault>,
    faults: u64,
}

impl<R: Files<File = File> + Drop> StoreFile<R> {
    /// A store that isn't open, with no fault so far.
    pub fn new(files: R) -> Self
        ensures { ⟦<StoreFile<R> as Disk>⟧.faults result ≡ 0 }
    {
        StoreFile {
            files,
            disk: None,
            why: None,
            faults: 0,
        }
    }

    /// Why the file wasn't opened.
    pub fn why(&self) -> Option<FileFault> {
        self.why
    }
}

/// One fault more.
fn fail(faults: &mut u64) -> Failed
    ensures fault { Rose faults.old faults.new }
    ensures never_falls { faults.old ≤ faults.new }
{
    *faults = faults.saturating_add(1);
    Failed
}

impl<R: Files<File = File> + Drop> Disk for StoreFile<R> {
    ghost stands = { λ _ _. ⊥ };

    ghost faults = { λ s. s.faults };

    fn read(&mut self, at: u64, into: &mut [u8]) -> Result<(), Failed> {
        if let Some(disk) = &mut self.disk {
            if disk.read(at, into).is_ok() {
                return Ok(());
            }
        }
        Err(fail(&mut self.faults))
    }

    fn write(&mut self, at: u64, bytes: &[u8]) -> Result<(), Failed> {
        if let Some(disk) = &mut self.disk {
            if disk.write(at, bytes).is_ok() {
                return Ok(());
            }
        }
        Err(fail(&mut self.faults))
    }

    fn sync(&mut self) -> Result<(), Failed> {
        if let Some(disk) = &mut self.disk {
            if disk.sync().is_ok() {
                return Ok(());
            }
        }
        Err(fail(&mut self.faults))
    }
}

impl<R: Files<File = File> + Drop> Store for StoreFile<R> {
    fn open(&mut self, path: &Chars) -> Result<(), Failed> {
        match FileDisk::open(&self.files, path.text()) {
            Ok(disk) => {
                self.disk = Some(disk);
                Ok(())
            }
            Err(why) => {
                self.why = Some(why);
                Err(fail(&mut self.faults))
            }
        }
    }
}
