//! Disks: what a read gives, what a crash may leave, and a disk in memory that crashes.
#![tactic(auto)]

mod disk;
mod laws;
mod left;
mod list;
mod memory;

pub use disk::Disk;
pub use laws::{
    failed_calls_leave_nothing, lefts_may_stand, moments_are_all, read_bytes_may_stand,
    synced_bytes_stay, synced_disks_begin_anew, unsynced_bytes_may_be_any,
    writes_spoil_their_place, written_bytes_are_read,
};
pub use left::Left;
pub use list::DiskList;
pub use memory::MemDisk;
