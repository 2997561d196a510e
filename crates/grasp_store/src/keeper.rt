//! The keeper.

ghost use Rattle.std.specs.Prelude.{◌≡◌, ◌≤◌, true, false, is_err, is_some, IfOk, IfErr, IsErrOf, MatchResult, OnOk, length, List, vec_capacity};
ghost use Rattle.grasp_io.specs.Faults.{Rose};
ghost use Rattle.grasp_disk.specs.Calls.{DiskLog, bytes_of, disk_size};
ghost use Rattle.grasp_disk.specs.Memory.{AllSucceed, MemStands, stopping_after};
ghost use Rattle.grasp_pool.specs.declared.roots.RootPrefix.{RootPrefix as Root};
ghost use Rattle.grasp_agent.specs.Calls.{next_call};
ghost use Rattle.grasp_agent.specs.Kept.{IsKept};
ghost use Rattle.grasp_store.specs.Current.{image_on};
ghost use Rattle.grasp_store.specs.Images.{image_behind};
ghost use Rattle.grasp_store.specs.Keeping.{FailsToOpen, GoesOn, IsKeepFault, Keeps, Opens, Saves, kept_before, saves_before, saves_behind};
ghost use Rattle.grasp_store.specs.Saving.{FailsIn, IsOldOrNew, before_calls, behind_calls, save_calls};
ghost use Rattle.grasp_store.specs.Slots.{body_size};
ghost use Rattle.grasp_store.specs.declared.fault.KeepFault.TheVariants as keep_fault;
ghost use Rattle.grasp_store.specs.declared.fault.OpenFault.TheVariants as open_fault;

use crate::fault::{KeepFault, Unopened};
use crate::image::KeptImage;
use crate::looking::Position;
use crate::opening::{Begun, Memory, begin};
use crate::saving::save;
use grasp_agent::PrefixAgent;
use grasp_cbor::OutOfMemory;
use grasp_disk::{Disk, MemDisk};
use grasp_pool::{PoolImage, RootPrefix};
use grasp_types::Call;
use std::alloc::Global;
use std::marker::Model;

/// It keeps the image of an agent's pool on a disk: what is free is to be free when a node begins anew, and what is reserved or
/// in doubt is to be in doubt. Ask it before each call of the agent and after each change of the agent.
///
/// A crash between two of its calls leaves the image that is current. A crash inside one leaves that image or the one that is
/// being saved, also where that call fails; and after its first fault it asks nothing of the disk any more.
///
/// `open` takes all the memory that it will need.
#[derive(Drop)]
pub struct Keeper<D: Disk> {
    disk: D,
    position: Position,
    image: KeptImage,
    next: KeptImage,
    body: Vec<u8>,
    faulty: bool,
}

impl<D: Disk> Model for Keeper<D> {
    ghost use Rattle.std.specs.Prelude.{◌≤◌, vec_capacity};
    ghost use Rattle.grasp_store.specs.Keeping.{KeeperState};
    ghost use Rattle.grasp_store.specs.Slots.{body_size};

    ghost Value = { KeeperState D };

    ghost view = { λ k. record {
      disk = k.disk;
      current = k.position.current;
      behind = k.position.behind;
      number = k.position.number;
      image = k.image;
      faulty = k.faulty;
    } };

    ghost invariant = { λ k. body_size ≤ vec_capacity k.body };
}

impl<D: Disk> Keeper<D> {
    /// Opens a disk, and the agent whose pool is that of its image: of the current one, and of the roots where no slot is open.
    ///
    /// `DiskFault` where a call of the disk fails; then `BadImage`, `Roots` and `OutOfMemory`. The disk comes back with the fault.
    pub fn open(
        alloc: Global,
        disk: D,
        roots: &[RootPrefix],
    ) -> Result<(Keeper<D>, PrefixAgent), Unopened<D>>
        ensures opened { IfOk result (λ r. (log : DiskLog) → D.stands disk log → length (bytes_of log) ≡ disk_size
            → Opens D.stands roots.now r.0 r.1 log) }
        ensures kept { IfOk result (λ r. IsKept r.1) }
        ensures refused { IfErr result (λ r. (log : DiskLog) → D.stands disk log → length (bytes_of log) ≡ disk_size
            → FailsToOpen (D.stands r.disk) roots.now log r.fault) }
        ensures fault { IfErr result (λ r. r.fault ≡ open_fault.DiskFault → Rose (D.faults disk) (D.faults r.disk)) }
        ensures never_falls { MatchResult result (λ r. D.faults disk ≤ D.faults r.0.disk) (λ r. D.faults disk ≤ D.faults r.disk) }
    {
        let mut disk = disk;
        match begin(alloc, &mut disk, roots) {
            Ok(begun) => {
                let Begun {
                    position,
                    memory,
                    agent,
                } = begun;
                Ok((Keeper::with(disk, position, memory), agent))
            }
            Err(fault) => Err(Unopened { disk, fault }),
        }
    }

    /// A keeper of this disk, whose slots and image are these.
    fn with(disk: D, position: Position, memory: Memory) -> Keeper<D>
        requires { body_size ≤ vec_capacity memory.body }
        ensures { result ≡ record {
          disk = disk;
          current = position.current;
          behind = position.behind;
          number = position.number;
          image = memory.image;
          faulty = false;
        } }
    {
        let Memory { image, next, body } = memory;
        Keeper {
            disk,
            position,
            image,
            next,
            body,
            faulty: false,
        }
    }

    /// Asked before the agent's next call is made. Where that call accepts a prefix, it saves the pool's image with this prefix
    /// in doubt besides, whatever is current. Else it does nothing.
    ///
    /// `Stopped` exactly after an earlier fault; then `Spent` exactly where it has to save, and the number is 2^64 - 1; then
    /// `DiskFault` where a call of the disk fails.
    pub fn before(&mut self, agent: &PrefixAgent, call: &Call) -> Result<(), KeepFault>
        requires is_next { call.now ≡ next_call agent.now }
        ensures done { OnOk result ((roots : List Root) (log : DiskLog) → Keeps D.stands roots self.old log
            → Saves D.stands roots self.new log (before_calls (bytes_of log) agent.now) (kept_before (image_on roots (bytes_of log)) agent.now)) }
        ensures failed { IsErrOf result keep_fault.DiskFault → (roots : List Root) (log : DiskLog) → Keeps D.stands roots self.old log
            → FailsIn (D.stands self.new.disk) log (before_calls (bytes_of log) agent.now)
            (IsOldOrNew (bytes_of log) (kept_before (image_on roots (bytes_of log)) agent.now)) }
        ensures answers { MatchResult result (λ _. GoesOn self.old (saves_before agent.now))
            (λ fault. IsKeepFault D.faults self.old self.new (saves_before agent.now) fault) }
        ensures stops { self.new.faulty ≡ is_err result }
        ensures never_falls { D.faults self.old.disk ≤ D.faults self.new.disk }
    {
        self.going()?;
        let Some(prefix) = agent.accepting() else {
            return Ok(());
        };
        self.next.copy_pool(agent.pool());
        self.next.add_doubt(prefix);
        let saved = save(
            &mut self.disk,
            &mut self.position,
            &mut self.body,
            &mut self.image,
            &mut self.next,
        );
        self.faulty = saved.is_err();
        saved
    }

    /// Asked after each call of the agent, and after it was told to want or to return a prefix. It saves the image of the
    /// agent's pool where that isn't the current one.
    ///
    /// The faults are those of `before`.
    pub fn after(&mut self, agent: &PrefixAgent) -> Result<(), KeepFault>
        ensures done { OnOk result ((roots : List Root) (log : DiskLog) → Keeps D.stands roots self.old log
            → Saves D.stands roots self.new log (behind_calls roots (bytes_of log) agent.now) (image_behind agent.now)) }
        ensures failed { IsErrOf result keep_fault.DiskFault → (roots : List Root) (log : DiskLog) → Keeps D.stands roots self.old log
            → FailsIn (D.stands self.new.disk) log (behind_calls roots (bytes_of log) agent.now)
            (IsOldOrNew (bytes_of log) (image_behind agent.now)) }
        ensures answers { MatchResult result (λ _. GoesOn self.old (saves_behind self.old.image agent.now))
            (λ fault. IsKeepFault D.faults self.old self.new (saves_behind self.old.image agent.now) fault) }
        ensures stops { self.new.faulty ≡ is_err result }
        ensures never_falls { D.faults self.old.disk ≤ D.faults self.new.disk }
    {
        self.going()?;
        self.next.copy_pool(agent.pool());
        if self.image.is_same(&self.next) {
            return Ok(());
        }
        self.save(agent)
    }

    /// Saves the image of the agent's pool also where it is current, so that a disk that was never used has an open slot.
    ///
    /// The faults are those of `before`.
    pub fn save(&mut self, agent: &PrefixAgent) -> Result<(), KeepFault>
        ensures done { OnOk result ((roots : List Root) (log : DiskLog) → Keeps D.stands roots self.old log
            → Saves D.stands roots self.new log (save_calls (bytes_of log) (image_behind agent.now)) (image_behind agent.now)) }
        ensures failed { IsErrOf result keep_fault.DiskFault → (roots : List Root) (log : DiskLog) → Keeps D.stands roots self.old log
            → FailsIn (D.stands self.new.disk) log (save_calls (bytes_of log) (image_behind agent.now))
            (IsOldOrNew (bytes_of log) (image_behind agent.now)) }
        ensures answers { MatchResult result (λ _. GoesOn self.old true) (λ fault. IsKeepFault D.faults self.old self.new true fault) }
        ensures stops { self.new.faulty ≡ is_err result }
        ensures never_falls { D.faults self.old.disk ≤ D.faults self.new.disk }
    {
        self.going()?;
        self.next.copy_pool(agent.pool());
        let saved = save(
            &mut self.disk,
            &mut self.position,
            &mut self.body,
            &mut self.image,
            &mut self.next,
        );
        self.faulty = saved.is_err();
        saved
    }

    /// Whether an image was ever saved on its disk: a slot is open.
    pub fn has_saved(&self) -> bool
        ensures { result ≡ is_some self.now.current }
    {
        self.position.current.is_some()
    }

    /// A keeper that has answered a fault is stopped.
    fn going(&self) -> Result<(), KeepFault>
        ensures { MatchResult result (λ _. self.now.faulty ≡ false) (λ fault. (fault ≡ keep_fault.Stopped) × (self.now.faulty ≡ true)) }
    {
        if self.faulty {
            return Err(KeepFault::Stopped);
        }
        Ok(())
    }

    /// A copy of the current image.
    pub fn image(&self, alloc: Global) -> Result<PoolImage, OutOfMemory>
        ensures { IfOk result (λ image. image ≡ self.now.image) }
    {
        self.image.copy(alloc)
    }

    /// Its disk, to be opened again or put away.
    pub fn close(self) -> D
        ensures { result ≡ self.disk }
    {
        self.disk
    }
}

impl Keeper<MemDisk> {
    /// From now on so many calls of its disk succeed, and no later one does until a crash.
    pub fn stop_after(&mut self, calls: u64)
        ensures stops { (roots : List Root) (log : DiskLog) → Keeps MemStands roots self.old log → AllSucceed log.calls
            → Keeps MemStands roots self.new (stopping_after log calls) }
        ensures same { self.new ≡ record self.old { disk = self.new.disk } }
        ensures same_faults { self.new.disk.faults ≡ self.old.disk.faults }
    {
        self.disk.stop_after(calls);
    }
}
