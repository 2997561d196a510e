//! Opening a disk.

ghost use Rattle.std.specs.Prelude.{◌≡◌, ◌≤◌, IfOk, IfErr, OnOk, OnErr, is_some, drop, length, vec_capacity};
ghost use Rattle.grasp_io.specs.Faults.{Rose};
ghost use Rattle.grasp_disk.specs.Calls.{DiskLog, after_made, bytes_of, disk_size, piece};
ghost use Rattle.grasp_pool.specs.Functions.{pool_of};
ghost use Rattle.grasp_agent.specs.Kept.{IsKept};
ghost use Rattle.grasp_store.specs.Asking.{BreaksIn};
ghost use Rattle.grasp_store.specs.Current.{image_or, newer};
ghost use Rattle.grasp_store.specs.Images.{IsGoodImage, image_of};
ghost use Rattle.grasp_store.specs.Keeping.{FailsToOpen};
ghost use Rattle.grasp_store.specs.Looking.{AreSound, chosen};
ghost use Rattle.grasp_store.specs.Opening.{IsBegun, IsFrom, IsRootless, MayRefuse, slot_at};
ghost use Rattle.grasp_store.specs.Saving.{open_calls};
ghost use Rattle.grasp_store.specs.Slots.{body_size, saved_in, slot_of, slot_size};
ghost use Rattle.grasp_store.specs.declared.fault.OpenFault.TheVariants as open_fault;

use crate::fault::OpenFault;
use crate::image::KeptImage;
use crate::looking::{Position, look};
use crate::place::Place;
use grasp_agent::PrefixAgent;
use grasp_cbor::OutOfMemory;
use grasp_disk::Disk;
use grasp_io::Failed;
use grasp_pool::{PoolFault, RootPrefix};
use std::alloc::Global;

const SLOT: usize = 69_645;

const BODY: usize = 69_644;

/// The memory of a keeper: its current image, the next one, and room for a body.
#[derive(Drop)]
pub(crate) struct Memory {
    pub(crate) image: KeptImage,
    pub(crate) next: KeptImage,
    pub(crate) body: Vec<u8>,
}

impl Memory {
    fn new(alloc: Global) -> Result<Memory, OutOfMemory>
        ensures { IfOk result (λ m. body_size ≤ vec_capacity m.body) }
    {
        Ok(Memory {
            image: KeptImage::new(alloc)?,
            next: KeptImage::new(alloc)?,
            body: Vec::with_capacity(alloc, BODY)?,
        })
    }
}

/// Syncs, and reads both slots.
pub(crate) fn read_slots<D: Disk>(
    disk: &mut D,
    first: &mut [u8],
    second: &mut [u8],
) -> Result<(), Failed>
    requires first { length first.old ≡ slot_size }
    requires second { length second.old ≡ slot_size }
    ensures done { OnOk result ((log : DiskLog) → D.stands disk.old log → D.stands disk.new (after_made log open_calls)) }
    ensures gives_first { OnOk result ((log : DiskLog) → D.stands disk.old log → first.new ≡ piece (bytes_of log) 0 slot_size) }
    ensures gives_second { OnOk result ((log : DiskLog) → D.stands disk.old log → second.new ≡ piece (bytes_of log) 70000 slot_size) }
    ensures failed { OnErr result ((log : DiskLog) → D.stands disk.old log → BreaksIn (D.stands disk.new) log open_calls) }
    ensures fault { OnErr result (Rose (D.faults disk.old) (D.faults disk.new)) }
    ensures never_falls { D.faults disk.old ≤ D.faults disk.new }
{
    disk.sync()?;
    disk.read(0, first)?;
    disk.read(70_000, second)?;
    Ok(())
}

/// The memory of a keeper that has the image of the roots, and the agent with their pool.
fn from_roots(alloc: Global, roots: &[RootPrefix]) -> Result<(Memory, PrefixAgent), OpenFault>
    ensures from { IfOk result (λ r. IsFrom (image_of (pool_of roots.now)) r.0.image r.1) }
    ensures memory { IfOk result (λ r. body_size ≤ vec_capacity r.0.body) }
    ensures kept { IfOk result (λ r. IsKept r.1) }
    ensures fault { IfErr result (λ fault. IsRootless roots.now fault) }
{
    let agent = match PrefixAgent::open(alloc, roots) {
        Ok(agent) => agent,
        Err(PoolFault::OutOfMemory) => return Err(OpenFault::OutOfMemory),
        Err(fault) => return Err(OpenFault::Roots(fault)),
    };
    let Ok(mut memory) = Memory::new(alloc) else {
        return Err(OpenFault::OutOfMemory);
    };
    memory.image.copy_pool(agent.pool());
    Ok((memory, agent))
}

/// The memory of a keeper that has the image of a slot, and the agent with its pool.
fn from_slot(alloc: Global, slot: &[u8]) -> Result<(Memory, PrefixAgent), OpenFault>
    requires size { length slot.now ≡ slot_size }
    requires good { IsGoodImage (saved_in (drop 1 slot.now)).image }
    ensures from { IfOk result (λ r. IsFrom (saved_in (drop 1 slot.now)).image r.0.image r.1) }
    ensures memory { IfOk result (λ r. body_size ≤ vec_capacity r.0.body) }
    ensures kept { IfOk result (λ r. IsKept r.1) }
    ensures fault { IfErr result (λ fault. fault ≡ open_fault.OutOfMemory) }
{
    let Ok(mut memory) = Memory::new(alloc) else {
        return Err(OpenFault::OutOfMemory);
    };
    memory.image.read(&slot[1..]);
    let Ok(image) = memory.image.copy(alloc) else {
        return Err(OpenFault::OutOfMemory);
    };
    match PrefixAgent::reopen(alloc, &image) {
        Ok(agent) => Ok((memory, agent)),
        Err(_) => Err(OpenFault::OutOfMemory),
    }
}

/// The bytes of the slot at this place.
fn slot_at<'a>(place: Place, first: &'a [u8], second: &'a [u8]) -> &'a [u8]
    ensures { result.now ≡ slot_at place first.now second.now }
{
    match place {
        Place::First => first,
        Place::Second => second,
    }
}

/// The same of the slot that is current, and of the roots where none is.
fn take(
    alloc: Global,
    current: Option<Place>,
    first: &[u8],
    second: &[u8],
    roots: &[RootPrefix],
) -> Result<(Memory, PrefixAgent), OpenFault>
    requires first { length first.now ≡ slot_size }
    requires second { length second.now ≡ slot_size }
    requires open { current ≡ newer (slot_of first.now) (slot_of second.now) }
    requires sound { AreSound (slot_of first.now) (slot_of second.now) }
    ensures from { IfOk result (λ r. IsFrom (image_or roots.now (chosen (slot_of first.now) (slot_of second.now) current)) r.0.image r.1) }
    ensures memory { IfOk result (λ r. body_size ≤ vec_capacity r.0.body) }
    ensures kept { IfOk result (λ r. IsKept r.1) }
    ensures fault { IfErr result (λ fault. MayRefuse roots.now (is_some current) fault) }
{
    match current {
        None => from_roots(alloc, roots),
        Some(place) => from_slot(alloc, slot_at(place, first, second)),
    }
}

/// What an opening finds: the position of the slots, the memory of a keeper with the current image, and the agent.
#[derive(Drop)]
pub(crate) struct Begun {
    pub(crate) position: Position,
    pub(crate) memory: Memory,
    pub(crate) agent: PrefixAgent,
}

/// Opens a disk.
pub(crate) fn begin<D: Disk>(
    alloc: Global,
    disk: &mut D,
    roots: &[RootPrefix],
) -> Result<Begun, OpenFault>
    ensures begun { IfOk result (λ b. (log : DiskLog) → D.stands disk.old log → length (bytes_of log) ≡ disk_size
        → IsBegun (D.stands disk.new) roots.now log b.position b.memory.image b.agent) }
    ensures memory { IfOk result (λ b. body_size ≤ vec_capacity b.memory.body) }
    ensures kept { IfOk result (λ b. IsKept b.agent) }
    ensures refused { IfErr result (λ fault. (log : DiskLog) → D.stands disk.old log → length (bytes_of log) ≡ disk_size
        → FailsToOpen (D.stands disk.new) roots.now log fault) }
    ensures fault { IfErr result (λ fault. fault ≡ open_fault.DiskFault → Rose (D.faults disk.old) (D.faults disk.new)) }
    ensures never_falls { D.faults disk.old ≤ D.faults disk.new }
{
    let mut first = [0; SLOT];
    let mut second = [0; SLOT];
    match read_slots(disk, &mut first, &mut second) {
        Ok(()) => {}
        Err(Failed) => return Err(OpenFault::DiskFault),
    }
    let position = match look(&first, &second) {
        Ok(position) => position,
        Err(fault) => return Err(fault),
    };
    match take(alloc, position.current, &first, &second, roots) {
        Ok((memory, agent)) => Ok(Begun {
            position,
            memory,
            agent,
        }),
        Err(fault) => Err(fault),
    }
}
