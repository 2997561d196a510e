//! The store of a node: a file in which the image of its agent's pool is kept.

use crate::disk::{FileDisk, FileFault};
use grasp_agent::PrefixAgent;
use grasp_pool::{PoolFault, RootPrefix};
use grasp_store::{KeepFault, Keeper, OpenFault, Unopened};
use std::alloc::Global;
use std::fs::File;
use std::rt::Files;
use thiserror::Error;

/// Why a store isn't made or opened.
#[derive(Debug, Drop, PartialEq, Eq, Error)]
pub enum StoreFault {
    /// The file isn't opened or made as a disk.
    #[error("{0}")]
    File(FileFault),
    /// The first slot, 0 or 1, that is open and holds no image that a pool can have; slot 1 where both have one number.
    #[error("bad store in slot {slot}")]
    BadImage { slot: u8 },
    /// No image was ever saved in it: its making broke off, or its content is lost.
    #[error("an empty store")]
    Empty,
    /// The roots with which it is to be made open no pool.
    #[error("{0}")]
    Roots(PoolFault),
    /// There is no memory for it.
    #[error("out of memory")]
    OutOfMemory,
}

/// A store that is open: its keeper, and the agent whose pool is that of its image.
#[derive(Drop)]
pub struct FileStore {
    pub keeper: Keeper<FileDisk>,
    pub agent: PrefixAgent,
}

impl FileStore {
    /// Makes a store at this path, whose image is that of the roots, with the number 1. Something that is there already is left
    /// alone. After a fault a file may be there that is no store yet, or is one.
    pub fn create<R: Files<File = File>>(
        files: &R,
        alloc: Global,
        path: &str,
        roots: &[RootPrefix],
    ) -> Result<FileStore, StoreFault> {
        let disk = match FileDisk::create(files, path) {
            Ok(disk) => disk,
            Err(fault) => return Err(StoreFault::File(fault)),
        };
        let mut store = FileStore::on(alloc, disk, roots)?;
        match store.keeper.save(&store.agent) {
            Ok(()) => Ok(store),
            Err(KeepFault::DiskFault | KeepFault::Spent | KeepFault::Stopped) => {
                Err(StoreFault::File(FileFault::Failed))
            }
        }
    }

    /// Opens the store at this path. A file that has no image is refused: its node begins with what was kept, and never with the
    /// roots again.
    pub fn open<R: Files<File = File>>(
        files: &R,
        alloc: Global,
        path: &str,
    ) -> Result<FileStore, StoreFault> {
        let disk = match FileDisk::open(files, path) {
            Ok(disk) => disk,
            Err(fault) => return Err(StoreFault::File(fault)),
        };
        let store = FileStore::on(alloc, disk, &[])?;
        if !store.keeper.has_saved() {
            return Err(StoreFault::Empty);
        }
        Ok(store)
    }

    /// The store on this disk, whose image is that of the roots where it has none.
    fn on(alloc: Global, disk: FileDisk, roots: &[RootPrefix]) -> Result<FileStore, StoreFault> {
        match Keeper::open(alloc, disk, roots) {
            Ok((keeper, agent)) => Ok(FileStore { keeper, agent }),
            Err(Unopened { disk: _, fault }) => Err(match fault {
                OpenFault::DiskFault => StoreFault::File(FileFault::Failed),
                OpenFault::BadImage { slot } => StoreFault::BadImage { slot },
                OpenFault::Roots(fault) => StoreFault::Roots(fault),
                OpenFault::OutOfMemory => StoreFault::OutOfMemory,
            }),
        }
    }
}
