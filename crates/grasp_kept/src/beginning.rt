//! A node that begins anew with what a crash has left on its disk.

ghost use Rattle.grasp_kept.specs.Beginning.{BeginsAnew, CanBegin};
ghost use Rattle.grasp_kept.specs.Opening.{RootsOpen};

use crate::opening::open_disk;
use grasp_disk::{Left, MemDisk};
use grasp_model_network::{Turn, WorldStop};
use grasp_pool::{PoolImage, RootPrefix};
use grasp_simulator::World;
use grasp_store::Keeper;
use std::alloc::Global;

/// A node crashes and begins anew with what is left on its disk. The image is that with which it begins.
pub(crate) fn begin_anew(
    alloc: Global,
    world: &mut World,
    keeper: Keeper<MemDisk>,
    node: u8,
    left: Left,
    roots: &[RootPrefix],
) -> Result<(Keeper<MemDisk>, PoolImage), WorldStop>
    requires can { CanBegin world.old keeper node left roots.now }
    requires roots { RootsOpen roots.now }
    ensures { BeginsAnew world.old world.new keeper node left roots.now result }
{
    let mut disk = keeper.close();
    disk.crash(left);
    let Ok(keeper) = open_disk(alloc, disk, roots) else {
        return Err(WorldStop::OutOfMemory);
    };
    let Ok(image) = keeper.image(alloc) else {
        return Err(WorldStop::OutOfMemory);
    };
    let Ok(begun) = keeper.image(alloc) else {
        return Err(WorldStop::OutOfMemory);
    };
    match world.turn(Turn::Restart { node, image: begun }) {
        Ok(_) => Ok((keeper, image)),
        Err(stop) => Err(stop),
    }
}
