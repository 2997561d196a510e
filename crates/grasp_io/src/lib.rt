//! What a node has to do with the world outside: sources and sinks of bytes, the links that join it to others, and clocks. Each
//! is a trait whose ghost members say what is left to read, what was written, given, handed over and read off, where that is
//! told, and how often the thing outside failed.
#![tactic(auto)]

mod buffered;
mod clock;
mod counters;
mod descriptors;
mod dial;
mod file;
mod guard;
mod journal;
mod link_log;
mod links;
mod memory;
mod memory_clock;
mod memory_links;
mod patient;
mod peers;
mod readiness;
mod reading;
mod sockets;
mod stamp;
mod standard;
mod stream;
mod wires;
mod writing;

pub use buffered::WriteBuffer;
pub use clock::{Clock, StdClock, random_seed};
pub use counters::{Counted, Counters, LinkFault};
pub use descriptors::StandardFiles;
pub use file::FileSource;
pub use guard::{AddressRange, Guard};
pub use journal::{Journal, LogLevel, LogSwitch};
pub use link_log::LinkLog;
pub use links::{Asked, LinkPlan, Links, Sent};
pub use memory::{MemSink, MemSource};
pub use memory_clock::MemClock;
pub use memory_links::{Arrival, MemLinks};
pub use patient::PatientSink;
pub use reading::{ReadError, Source, read_all};
pub use sockets::MioLinks;
pub use stamp::Stamp;
pub use standard::{StdSink, StdSource, read_some, write_some};
pub use writing::{Sink, write_all};

/// A read or a write failed, or the links could not be opened. The count of faults of the source, the sink or the links rose in
/// that call.
#[derive(Clone, Copy, Debug, PartialEq, Eq)]
pub struct Failed;
