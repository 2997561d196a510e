//! A disk that is opened by its path.
ghost use Rattle.std.specs.Prelude.{◌≤◌, OnOk, OnErr};
ghost use Rattle.grasp_io.specs.Faults.{Rose};
ghost use Rattle.grasp_disk.specs.Calls.{DiskLog};

use grasp_cbor::Chars;
use grasp_disk::Disk;
use grasp_io::Failed;

/// A disk that is opened by its path before anything is asked of it. It stands for what stands at the path.
pub trait Store: Disk + Drop {
    /// Opens what stands at the path, so that nobody else opens it meanwhile. It is called once.
    fn open(&mut self, path: &Chars) -> Result<(), Failed>
        ensures opened { OnOk result ((log : DiskLog) → Self.stands self.old log → Self.stands self.new log) }
        ensures closed { OnErr result ((log : DiskLog) → Self.stands self.old log → Self.stands self.new log) }
        ensures fault { OnErr result (Rose (Self.faults self.old) (Self.faults self.new)) }
        ensures never_falls { Self.faults self.old ≤ Self.faults self.new };
}
