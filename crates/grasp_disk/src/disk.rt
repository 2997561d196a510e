//! What keeps bytes through a crash.
ghost use Rattle.std.specs.Prelude.{◌≡◌, ◌≤◌, ◌+◌, ℕ, true, is_ok, length, OnOk, OnErr};
ghost use Rattle.grasp_io.specs.Faults.{Rose};
ghost use Rattle.grasp_disk.specs.Calls.{DiskLog, Spoils, disk_size, read, wrote, synced, more, bytes_of, piece};

use grasp_io::Failed;

/// A disk of 140,000 bytes, which are 0 where nothing was ever written. Places are counted from 0.
///
/// After a sync that succeeds a crash leaves what a read gives. Until the next one, a crash may leave any bytes at the place of a
/// write, also of one that failed; the other bytes stay. Each call may be made again after one that failed.
pub trait Disk {
    /// What was asked of it so far, and what stood on it before: it may stand for several such logs, and for none where it
    /// doesn't tell.
    ghost stands: { Self → DiskLog → Type 0 };

    /// How often something failed. It never falls.
    ghost faults: { Self → ℕ };

    /// Fills `into` with the bytes from this place on. After `Failed` anything may stand in `into`.
    fn read(&mut self, at: u64, into: &mut [u8]) -> Result<(), Failed>
        requires { at + length into.old ≤ disk_size }
        ensures gives { OnOk result ((log : DiskLog) → stands self.old log
            → into.new ≡ piece (bytes_of log) at (length into.old)) }
        ensures asked { (log : DiskLog) → stands self.old log → stands self.new (more log (read (is_ok result))) }
        ensures fault { OnErr result (Rose (faults self.old) (faults self.new)) }
        ensures never_falls { faults self.old ≤ faults self.new };

    /// Writes the bytes over those from this place on. After `Failed` any bytes may stand there, and the others are as before.
    fn write(&mut self, at: u64, bytes: &[u8]) -> Result<(), Failed>
        requires { at + length bytes.now ≤ disk_size }
        ensures written { OnOk result ((log : DiskLog) → stands self.old log
            → stands self.new (more log (wrote at bytes.now true))) }
        ensures spoilt { OnErr result ((log : DiskLog) → stands self.old log
            → Spoils (stands self.new) log at (length bytes.now)) }
        ensures fault { OnErr result (Rose (faults self.old) (faults self.new)) }
        ensures never_falls { faults self.old ≤ faults self.new };

    /// Sees that a crash leaves what a read gives now. After `Failed` it may leave what it might have left before.
    fn sync(&mut self) -> Result<(), Failed>
        ensures asked { (log : DiskLog) → stands self.old log → stands self.new (more log (synced (is_ok result))) }
        ensures fault { OnErr result (Rose (faults self.old) (faults self.new)) }
        ensures never_falls { faults self.old ≤ faults self.new };
}
