//! Laws of the crash model.

ghost use Rattle.grasp_disk.specs.Laws.{SyncedBytesStay, ReadBytesMayStand, WrittenBytesAreRead, WritesSpoilTheirPlace, UnsyncedBytesMayBeAny};
ghost use Rattle.grasp_disk.specs.Laws.{MomentsAreAll, LeftsMayStand, SyncedDisksBeginAnew, FailedCallsLeaveNothing};

/// After a sync that succeeded a crash leaves what a read gives, and nothing else.
pub fn synced_bytes_stay()
    ensures { SyncedBytesStay }
{}

/// A crash may leave what a read gives.
pub fn read_bytes_may_stand()
    ensures { ReadBytesMayStand }
{}

/// A read gives what was written last, and elsewhere what it gave before.
pub fn written_bytes_are_read()
    ensures { WrittenBytesAreRead }
{}

/// Where all was synced before a write, a crash after it leaves all other bytes as they were, also where the write failed.
pub fn writes_spoil_their_place()
    ensures { WritesSpoilTheirPlace }
{}

/// A crash may leave any bytes at the place of a write that no sync came after.
pub fn unsynced_bytes_may_be_any()
    ensures { UnsyncedBytesMayBeAny }
{}

/// What holds of whatever a crash leaves at each moment of calls, holds of whatever it leaves behind any first so many of them.
pub fn moments_are_all()
    ensures { MomentsAreAll }
{}

/// Each content that a disk in memory has after a crash is one that the crash may leave.
pub fn lefts_may_stand()
    ensures { LeftsMayStand }
{}

/// A disk in memory on which all is synced may be taken for one that begins with what a read gives now: what came before makes no
/// difference to what it does from then on.
pub fn synced_disks_begin_anew()
    ensures { SyncedDisksBeginAnew }
{}

/// A call that fails makes no difference to what a crash leaves of a disk in memory.
pub fn failed_calls_leave_nothing()
    ensures { FailedCallsLeaveNothing }
{}
