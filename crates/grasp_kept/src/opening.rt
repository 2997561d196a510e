//! A disk that is opened.

ghost use Rattle.std.specs.Prelude.{IfOk};
ghost use Rattle.grasp_kept.specs.Opening.{CanOpen, KeepsOpened, RootsOpen};

use grasp_cbor::OutOfMemory;
use grasp_disk::MemDisk;
use grasp_pool::RootPrefix;
use grasp_store::{Keeper, OpenFault};
use std::alloc::Global;

/// Opens a disk that never stops and can be opened.
pub(crate) fn open_disk(
    alloc: Global,
    disk: MemDisk,
    roots: &[RootPrefix],
) -> Result<Keeper<MemDisk>, OutOfMemory>
    requires can { CanOpen disk }
    requires roots { RootsOpen roots.now }
    ensures { IfOk result (λ keeper. KeepsOpened roots.now disk keeper) }
{
    match Keeper::open(alloc, disk, roots) {
        Ok((keeper, _)) => Ok(keeper),
        Err(unopened) => match unopened.fault {
            OpenFault::OutOfMemory => Err(OutOfMemory),
            _ => unreachable!(),
        },
    }
}
