//! Where a node keeps its pool.

ghost use Rattle.std.specs.Prelude.{◌≡◌, ◌≤◌, [], Some, None, true, is_ok, is_some, length, IfOk, IfErr, OnOk, MatchResult};
ghost use Rattle.grasp_io.specs.Faults.{Rose};
ghost use Rattle.grasp_disk.specs.Calls.{DiskLog, bytes_of, disk_size};
ghost use Rattle.grasp_agent.specs.Calls.{next_call};
ghost use Rattle.grasp_agent.specs.Kept.{IsKept};
ghost use Rattle.grasp_store.specs.Current.{image_on};
ghost use Rattle.grasp_store.specs.Images.{image_behind};
ghost use Rattle.grasp_shelf.specs.Opening.{OpensSaved, OpensShelf, IsShelfFault, IsOfCalls, IsUnused, LeavesClosed, fault_of};
ghost use Rattle.grasp_shelf.specs.Shelves.{IsClosed, KeepsShelf, KeptOn, kept_before, kept_behind, faults_of, store_of};
ghost use Rattle.grasp_shelf.specs.Shelves.{ahead, behind, FailsToKeep, MayKeep};

use crate::fault::ShelfFault;
use crate::store::Store;
use grasp_agent::PrefixAgent;
use grasp_cbor::Chars;
use grasp_disk::Disk;
use grasp_io::Failed;
use grasp_store::{KeepFault, Keeper, OpenFault, Unopened};
use grasp_types::Call;
use std::alloc::Global;
use std::marker::Model;

/// Where a node keeps its pool: a store that isn't open yet, or the keeper of one that is. Where no store is opened, nothing is kept.
#[derive(Drop)]
pub struct Shelf<B: Disk> {
    store: Option<B>,
    keeper: Option<Keeper<B>>,
    fault: Option<ShelfFault>,
}

impl<B: Disk> Model for Shelf<B> {
    ghost use Rattle.grasp_shelf.specs.Shelves.{ShelfState};

    ghost Value = { ShelfState B };

    ghost view = { λ s. record { store = s.store; keeper = s.keeper; fault = s.fault } };
}

/// A store that wasn't opened, and why.
#[derive(Drop)]
struct Unshelved<B: Disk> {
    store: B,
    fault: ShelfFault,
}

impl<B: Disk> Shelf<B> {
    /// A shelf with this store, which isn't open.
    pub fn new(store: B) -> Shelf<B>
        ensures { result ≡ record { store = Some store; keeper = None; fault = None } }
    {
        Shelf {
            store: Some(store),
            keeper: None,
            fault: None,
        }
    }

    /// Asked before the next call of the agent. Where that call accepts a prefix, the store has this prefix in doubt afterwards.
    /// Where no store is open, nothing is done.
    ///
    /// `Stopped` exactly after an earlier fault; then `Spent` exactly where something is to be saved, and the number of saves is
    /// 2^64 - 1; then `DiskFault` where a call of the disk fails.
    #[tactic(auto, using(crate::proofs::Keeping::asking))]
    pub fn before(&mut self, agent: &PrefixAgent, call: &Call) -> Result<(), KeepFault>
        requires is_next { call.now ≡ next_call agent.now }
        ensures kept { MatchResult result (λ _. KeptOn B.stands B.faults self.old (kept_before agent.now) self.new)
            (λ fault. FailsToKeep B.stands B.faults self.old (ahead agent.now) fault self.new) }
        ensures may { OnOk result (MayKeep self.old.keeper (ahead agent.now)) }
        ensures never_falls { faults_of B.faults self.old ≤ faults_of B.faults self.new }
        ensures there { is_some (store_of self.new) ≡ is_some (store_of self.old) }
        ensures forgets { self.old.keeper ≡ None → is_ok result ≡ true }
    {
        let Some(keeper) = &mut self.keeper else {
            return Ok(());
        };
        keeper.before(agent, call)
    }

    /// Asked behind each call of the agent. The store has the image of the agent's pool afterwards. Where no store is open,
    /// nothing is done.
    ///
    /// The faults are those of `before`.
    #[tactic(auto, using(crate::proofs::Keeping::asking))]
    pub fn after(&mut self, agent: &PrefixAgent) -> Result<(), KeepFault>
        ensures kept { MatchResult result (λ _. KeptOn B.stands B.faults self.old (kept_behind agent.now) self.new)
            (λ fault. FailsToKeep B.stands B.faults self.old (behind agent.now) fault self.new) }
        ensures may { OnOk result (MayKeep self.old.keeper (behind agent.now)) }
        ensures never_falls { faults_of B.faults self.old ≤ faults_of B.faults self.new }
        ensures there { is_some (store_of self.new) ≡ is_some (store_of self.old) }
        ensures has { OnOk result ((log : DiskLog) → KeepsShelf B.stands self.old log
            → image_on [] (bytes_of (kept_behind agent.now log)) ≡ image_behind agent.now) }
        ensures forgets { self.old.keeper ≡ None → is_ok result ≡ true }
    {
        let Some(keeper) = &mut self.keeper else {
            return Ok(());
        };
        keeper.after(agent)
    }

    /// Why its store wasn't opened.
    pub fn why(&self) -> Option<ShelfFault>
        ensures { result ≡ self.now.fault }
    {
        self.fault
    }
}

impl<B: Store> Shelf<B> {
    /// Its store, for whoever goes on with it: that of its keeper, or the one that isn't open.
    pub fn into_store(self) -> Option<B>
        ensures { result ≡ store_of self }
    {
        let Shelf {
            store,
            keeper,
            fault: _,
        } = self;
        match keeper {
            Some(keeper) => Some(keeper.close()),
            None => store,
        }
    }

    /// Opens the store at this path, and the agent whose pool is that of the image which was saved there last. Where none was, it
    /// is refused: a node begins with what it kept, and never with its roots again. It is called once.
    ///
    /// After an `Err` the store isn't open, and `why` says why. A crash then leaves what it might have left before.
    #[tactic(auto, using(crate::proofs::Opened::opening))]
    pub fn open(&mut self, alloc: Global, path: &Chars) -> Result<PrefixAgent, ShelfFault>
        ensures opened { IfOk result (λ agent. (log : DiskLog) → IsClosed B.stands self.old log → length (bytes_of log) ≡ disk_size
            → OpensShelf B.stands self.new agent log) }
        ensures kept { IfOk result IsKept }
        ensures refused { IfErr result (λ fault. (log : DiskLog) → IsClosed B.stands self.old log → length (bytes_of log) ≡ disk_size
            → IsShelfFault (bytes_of log) fault) }
        ensures fault { IfErr result (λ fault. IsOfCalls fault → IsUnused self.old → Rose (faults_of B.faults self.old) (faults_of B.faults self.new)) }
        ensures leaves { IfErr result (λ fault. (log : DiskLog) → IsClosed B.stands self.old log → length (bytes_of log) ≡ disk_size
            → LeavesClosed (IsClosed B.stands self.new) log fault) }
        ensures there { is_some (store_of self.new) ≡ is_some (store_of self.old) }
        ensures why { IfErr result (λ fault. self.new.fault ≡ Some fault) }
        ensures never_falls { faults_of B.faults self.old ≤ faults_of B.faults self.new }
    {
        if self.keeper.is_some() {
            self.fault = Some(ShelfFault::Unopened);
            return Err(ShelfFault::Unopened);
        }
        let Some(store) = self.store.take() else {
            self.fault = Some(ShelfFault::Unopened);
            return Err(ShelfFault::Unopened);
        };
        match open_store(alloc, store, path) {
            Ok((keeper, agent)) => {
                self.keeper = Some(keeper);
                Ok(agent)
            }
            Err(Unshelved { store, fault }) => {
                self.store = Some(store);
                self.fault = Some(fault);
                Err(fault)
            }
        }
    }
}

/// Opens a store at this path, in which an image was saved.
#[tactic(auto, using(crate::proofs::Opened::opening))]
fn open_store<B: Store>(
    alloc: Global,
    store: B,
    path: &Chars,
) -> Result<(Keeper<B>, PrefixAgent), Unshelved<B>>
    ensures opened { IfOk result (λ r. (log : DiskLog) → B.stands store log → length (bytes_of log) ≡ disk_size
        → OpensSaved B.stands (Some r.0) r.1 log) }
    ensures kept { IfOk result (λ r. IsKept r.1) }
    ensures refused { IfErr result (λ r. (log : DiskLog) → B.stands store log → length (bytes_of log) ≡ disk_size
        → IsShelfFault (bytes_of log) r.fault) }
    ensures leaves { IfErr result (λ r. (log : DiskLog) → B.stands store log → length (bytes_of log) ≡ disk_size
        → LeavesClosed (B.stands r.store) log r.fault) }
    ensures fault { IfErr result (λ r. IsOfCalls r.fault → Rose (B.faults store) (B.faults r.store)) }
    ensures never_falls { MatchResult result (λ r. B.faults store ≤ B.faults r.0.disk) (λ r. B.faults store ≤ B.faults r.store) }
{
    let mut store = store;
    match store.open(path) {
        Ok(()) => open_disk(alloc, store),
        Err(Failed) => Err(Unshelved {
            store,
            fault: ShelfFault::Unopened,
        }),
    }
}

/// Opens a disk in which an image was saved.
#[tactic(auto, using(crate::proofs::Opened::opening))]
fn open_disk<B: Disk>(alloc: Global, disk: B) -> Result<(Keeper<B>, PrefixAgent), Unshelved<B>>
    ensures opened { IfOk result (λ r. (log : DiskLog) → B.stands disk log → length (bytes_of log) ≡ disk_size
        → OpensSaved B.stands (Some r.0) r.1 log) }
    ensures kept { IfOk result (λ r. IsKept r.1) }
    ensures refused { IfErr result (λ r. (log : DiskLog) → B.stands disk log → length (bytes_of log) ≡ disk_size
        → IsShelfFault (bytes_of log) r.fault) }
    ensures leaves { IfErr result (λ r. (log : DiskLog) → B.stands disk log → length (bytes_of log) ≡ disk_size
        → LeavesClosed (B.stands r.store) log r.fault) }
    ensures fault { IfErr result (λ r. IsOfCalls r.fault → Rose (B.faults disk) (B.faults r.store)) }
    ensures never_falls { MatchResult result (λ r. B.faults disk ≤ B.faults r.0.disk) (λ r. B.faults disk ≤ B.faults r.store) }
{
    match Keeper::open(alloc, disk, &[]) {
        Ok((keeper, agent)) => {
            if keeper.has_saved() {
                Ok((keeper, agent))
            } else {
                Err(Unshelved {
                    store: keeper.close(),
                    fault: ShelfFault::Empty,
                })
            }
        }
        Err(Unopened { disk, fault }) => Err(Unshelved {
            store: disk,
            fault: fault_of(&fault),
        }),
    }
}

/// Why a disk isn't opened. Without roots it is empty where the roots open no pool.
fn fault_of(fault: &OpenFault) -> ShelfFault
    ensures { result ≡ fault_of fault.now }
{
    match fault {
        OpenFault::DiskFault => ShelfFault::DiskFault,
        OpenFault::BadImage { slot } => ShelfFault::BadImage { slot: *slot },
        OpenFault::Roots(_) => ShelfFault::Empty,
        OpenFault::OutOfMemory => ShelfFault::OutOfMemory,
    }
}
