//! A disk in memory that stops and crashes.
ghost use Rattle.std.specs.Prelude.{◌≡◌, ◌≤◌, ◌+◌, length, is_ok, IfOk, OnErr};
ghost use Rattle.grasp_io.specs.Faults.{Rose};
ghost use Rattle.grasp_disk.specs.Calls.{DiskLog, overlaid, state_of};
ghost use Rattle.grasp_disk.specs.Crashes.{MayBecome};
ghost use Rattle.grasp_disk.specs.Memory.{MemStands, AllSucceed, can_go, one_less, stopping_after, log_from, empty_log, left_by, zeros};

use crate::{Disk, Left};
use grasp_cbor::OutOfMemory;
use grasp_io::Failed;
use std::alloc::{AllocError, Global};
use std::marker::Model;

const SIZE: usize = 140_000;

/// A disk in memory. It may be told to stop after so many calls: then each later call fails, and a write writes nothing. A crash
/// leaves one of three contents and lets it go on. After it is made, no call takes memory.
#[derive(Drop)]
pub struct MemDisk {
    // What a read gives.
    bytes: Vec<u8>,
    // What stood there at the last sync.
    kept: Vec<u8>,
    // What the last write since then leaves where its second half isn't written.
    torn: Vec<u8>,
    // How many calls can succeed yet, where it stops.
    left: Option<u64>,
    faults: u64,
}

impl Model for MemDisk {
    ghost use Rattle.std.specs.Prelude.{◌≡◌, length};
    ghost use Rattle.grasp_disk.specs.Calls.{disk_size};
    ghost use Rattle.grasp_disk.specs.Memory.{MemDiskState};

    ghost Value = { MemDiskState };

    ghost view = { λ m. record {
      bytes = m.bytes.items;
      kept = m.kept.items;
      torn = m.torn.items;
      left = m.left;
      faults = m.faults;
    } };

    ghost invariant = { λ m. (length m.bytes.items ≡ disk_size) × (length m.kept.items ≡ disk_size)
        × (length m.torn.items ≡ disk_size) };
}

// Puts the bytes in the place of those that are there.
fn lay(over: &mut [u8], at: usize, new: &[u8])
    requires { at + length new.now ≤ length over.old }
    ensures { over.new ≡ overlaid over.old at new.now }
{
    let (_, behind) = over.split_at_mut(at);
    let (place, _) = behind.split_at_mut(new.len());
    place.copy_from_slice(new);
}

// So many bytes that are 0.
fn zeros(alloc: Global, count: usize) -> Result<Vec<u8>, AllocError>
    ensures value { IfOk result (λ bytes. bytes.items ≡ zeros count) }
    ensures size { IfOk result (λ bytes. length bytes.items ≡ count) }
{
    Vec::from_elem(alloc, 0, count)
}

impl MemDisk {
    /// A disk on which nothing was written, and which never stops.
    pub fn new(alloc: Global) -> Result<MemDisk, OutOfMemory>
        ensures { IfOk result (λ disk. MemStands disk empty_log) }
    {
        Ok(MemDisk {
            bytes: zeros(alloc, SIZE)?,
            kept: zeros(alloc, SIZE)?,
            torn: zeros(alloc, SIZE)?,
            left: None,
            faults: 0,
        })
    }

    /// From now on so many calls succeed, reads among them, and no later one does until a crash. Of a disk of which a call has
    /// failed already since the last crash no more is promised.
    pub fn stop_after(&mut self, calls: u64)
        ensures stops { (log : DiskLog) → MemStands self.old log → AllSucceed log.calls
            → MemStands self.new (stopping_after log calls) }
        ensures same_faults { self.new.faults ≡ self.old.faults }
    {
        self.left = Some(calls);
    }

    /// It crashes, and goes on with what is left of it, never to stop.
    pub fn crash(&mut self, left: Left)
        ensures leaves { (log : DiskLog) → MemStands self.old log
            → MemStands self.new (log_from (left_by left log.start.bytes log.calls)) }
        ensures may { (log : DiskLog) → MemStands self.old log
            → MayBecome (state_of log) (left_by left log.start.bytes log.calls) }
        ensures same_faults { self.new.faults ≡ self.old.faults }
    {
        match left {
            Left::Old => self.bytes.copy_from_slice(&self.kept),
            Left::New => {}
            Left::Torn => self.bytes.copy_from_slice(&self.torn),
        }
        self.settle();
        self.left = None;
    }

    // Now all is synced.
    fn settle(&mut self)
        ensures { self.new ≡ record self.old {
          kept = self.old.bytes;
          torn = self.old.bytes;
        } }
    {
        self.torn.copy_from_slice(&self.bytes);
        self.kept.copy_from_slice(&self.bytes);
    }

    // Counts a call, and whether it is to fail.
    fn count(&mut self) -> Result<(), Failed>
        ensures goes { is_ok result ≡ can_go self.old.left }
        ensures only { self.new ≡ record self.old {
          left = one_less self.old.left;
          faults = self.new.faults;
        } }
        ensures fault { OnErr result (Rose self.old.faults self.new.faults) }
        ensures never_falls { self.old.faults ≤ self.new.faults }
    {
        match &mut self.left {
            Some(0) => {
                self.faults = self.faults.saturating_add(1);
                Err(Failed)
            }
            Some(calls) => {
                *calls -= 1;
                Ok(())
            }
            None => Ok(()),
        }
    }
}

impl Disk for MemDisk {
    ghost stands = { MemStands };

    ghost faults = { λ m. m.faults };

    fn read(&mut self, at: u64, into: &mut [u8]) -> Result<(), Failed> {
        self.count()?;
        let at = at as usize;
        into.copy_from_slice(&self.bytes[at..at + into.len()]);
        Ok(())
    }

    fn write(&mut self, at: u64, bytes: &[u8]) -> Result<(), Failed> {
        self.count()?;
        let at = at as usize;
        self.torn.copy_from_slice(&self.bytes);
        lay(&mut self.torn, at, &bytes[..bytes.len() / 2]);
        lay(&mut self.bytes, at, bytes);
        Ok(())
    }

    fn sync(&mut self) -> Result<(), Failed> {
        self.count()?;
        self.settle();
        Ok(())
    }
}
