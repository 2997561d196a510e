//! A file as a disk.

ghost use Rattle.std.specs.Prelude.{◌≤◌};
ghost use Rattle.grasp_io.specs.Faults.{Rose};

use crate::pieces::{FILE_BYTES, GATES, fill, read_pieces, write_pieces};
use crate::slots::is_whole;
use grasp_disk::Disk;
use grasp_io::Failed;
use std::fs::{File, OpenOptions};
use std::io::ErrorKind;
use std::os::fd::AsRawFd;
use std::path::Path;
use std::rt::Files;
use thiserror::Error;

/// Why a file isn't opened as a disk, or isn't made.
#[derive(Clone, Copy, Debug, PartialEq, Eq, Error)]
pub enum FileFault {
    /// Something is at the path where a file is to be made.
    #[error("there is a file already")]
    Exists,
    /// It can't be opened, or isn't a file of the right length.
    #[error("no store")]
    NoStore,
    /// Another process has it open, or this one has it open already.
    #[error("the store is busy")]
    Busy,
    /// This slot, 0 or 1, is not as it was written.
    #[error("bad store in slot {slot}")]
    Spoilt { slot: u8 },
    /// A call of the machine failed.
    #[error("the file failed")]
    Failed,
}

/// A file of the machine as a disk, which nobody else opens as a disk meanwhile. It tells no content.
///
/// It keeps the promises of a disk where the machine does: `sync` returns once the medium has the bytes, a loss of power spoils
/// no block of 4,096 bytes that isn't being written and leaves the first eight bytes of such a block old or new, nobody else writes
/// the file, and no older copy is put in its place. After a sync that failed each call fails, since the machine may have dropped
/// what was written.
///
/// It tells where the medium breaks that promise: each gate has its bytes twice over, and what was written behind it in one call has a
/// sum, which is looked at once the gate is open. Whoever opens a gate has to have written all behind it in one call.
#[derive(Drop)]
pub struct FileDisk {
    file: File,
    broken: bool,
    faults: u64,
}

impl FileDisk {
    /// Makes a disk at this path, on which nothing was written: `Exists` where something is there, and it is left alone. After
    /// another fault a file may be there that is no disk yet.
    pub fn create<R: Files<File = File>>(files: &R, path: &str) -> Result<FileDisk, FileFault> {
        let file = match File::create_new(files, path) {
            Ok(file) => file,
            Err(fault) if fault.kind() == ErrorKind::AlreadyExists => return Err(FileFault::Exists),
            Err(_) => return Err(FileFault::Failed),
        };
        if file.try_lock().is_err() {
            return Err(FileFault::Busy);
        }
        if fill(&file).is_err() || file.sync_all().is_err() {
            return Err(FileFault::Failed);
        }
        sync_folder(files, path)?;
        Ok(FileDisk::of(file))
    }

    /// Opens the disk at this path, and locks it. What an earlier process wrote is brought to the medium first, and the machine's
    /// copies of it are dropped: that process may have met a sync that failed. `Spoilt` where a slot isn't as it was written.
    pub fn open<R: Files<File = File>>(files: &R, path: &str) -> Result<FileDisk, FileFault> {
        let Ok(file) = OpenOptions::new().read(true).write(true).open(files, path) else {
            return Err(FileFault::NoStore);
        };
        match file.metadata() {
            Ok(found) if found.is_file() && found.len() == FILE_BYTES => {}
            _ => return Err(FileFault::NoStore),
        }
        if file.try_lock().is_err() {
            return Err(FileFault::Busy);
        }
        if file.sync_all().is_err() {
            return Err(FileFault::Failed);
        }
        if libc::posix_fadvise(file.as_raw_fd(), 0, 0, libc::POSIX_FADV_DONTNEED) != 0 {
            return Err(FileFault::Failed);
        }
        see_slots(&file)?;
        Ok(FileDisk::of(file))
    }

    /// A disk over a file that is locked.
    fn of(file: File) -> FileDisk {
        FileDisk {
            file,
            broken: false,
            faults: 0,
        }
    }
}

/// Sees that each slot is as it was written.
fn see_slots(file: &File) -> Result<(), FileFault> {
    for slot in 0..2u8 {
        match is_whole(file, GATES[slot as usize]) {
            Ok(true) => {}
            Ok(false) => return Err(FileFault::Spoilt { slot }),
            Err(Failed) => return Err(FileFault::Failed),
        }
    }
    Ok(())
}

/// Sees that the name of a file that was made stays through a loss of power.
fn sync_folder<R: Files<File = File>>(files: &R, path: &str) -> Result<(), FileFault> {
    let folder = match Path::new(path).parent() {
        Some(folder) if !folder.to_str().unwrap_or("").is_empty() => folder,
        _ => Path::new("."),
    };
    let Ok(folder) = File::open(files, folder) else {
        return Err(FileFault::Failed);
    };
    if folder.sync_all().is_err() {
        return Err(FileFault::Failed);
    }
    Ok(())
}

/// One fault more.
fn fail(faults: &mut u64) -> Failed
    ensures fault { Rose faults.old faults.new }
    ensures never_falls { faults.old ≤ faults.new }
{
    *faults = faults.saturating_add(1);
    Failed
}

impl Disk for FileDisk {
    ghost stands = { λ _ _. ⊥ };

    ghost faults = { λ d. d.faults };

    fn read(&mut self, at: u64, into: &mut [u8]) -> Result<(), Failed> {
        if self.broken || read_pieces(&self.file, at, into).is_err() {
            return Err(fail(&mut self.faults));
        }
        Ok(())
    }

    fn write(&mut self, at: u64, bytes: &[u8]) -> Result<(), Failed> {
        if self.broken || write_pieces(&self.file, at, bytes).is_err() {
            return Err(fail(&mut self.faults));
        }
        Ok(())
    }

    fn sync(&mut self) -> Result<(), Failed> {
        if self.broken || self.file.sync_data().is_err() {
            self.broken = true;
            return Err(fail(&mut self.faults));
        }
        Ok(())
    }
}
