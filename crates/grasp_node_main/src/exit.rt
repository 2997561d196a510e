//! How the program ends.

ghost use Rattle.std.specs.Prelude.{◌≡◌, ◌++◌, codes, IfOk};
ghost use Rattle.grasp_config.specs.Faults.{key_word};
ghost use Rattle.grasp_node_main.specs.Exits.{number_of, fault_line_of};

use grasp_cbor::{Chars, OutOfMemory};
use grasp_config::ConfigKey;
use std::alloc::Global;

/// How a call of the program ended.
#[derive(Clone, Copy, Debug, PartialEq, Eq)]
pub enum Status {
    /// The node made its turns, and all was written.
    Ok,
    /// The words are no call of the program.
    Usage,
    /// This key is the first that is bad in the configuration.
    BadConfig { key: ConfigKey },
    /// A read failed.
    ReadFault,
    /// A write failed.
    WriteFault,
    /// There was no memory for the call.
    OutOfMemory,
    /// The configuration has more than 65,536 bytes.
    TooLarge,
    /// The links couldn't be opened.
    LinkFault,
}

impl Status {
    /// The number that the program exits with.
    pub fn number(self) -> u8
        ensures { result ≡ number_of self }
    {
        match self {
            Status::Ok => 0,
            Status::Usage => 2,
            Status::BadConfig { .. } => 3,
            Status::ReadFault => 4,
            Status::WriteFault => 5,
            Status::OutOfMemory => 6,
            Status::TooLarge => 7,
            Status::LinkFault => 8,
        }
    }
}

/// The line for standard error, without a line end. It is empty for `Ok`.
pub fn fault_text(status: &Status) -> &'static str
    ensures { result.now ≡ fault_line_of status.now }
{
    match status {
        Status::Ok => "",
        Status::Usage => "usage: grasp_node run FILE",
        Status::BadConfig { key } => key_text(*key),
        Status::ReadFault => "read fault",
        Status::WriteFault => "write fault",
        Status::OutOfMemory => "out of memory",
        Status::TooLarge => "too large",
        Status::LinkFault => "link fault",
    }
}

/// The line of a bad key.
fn key_text(key: ConfigKey) -> &'static str
    ensures { result.now ≡ codes "bad config: " ++ key_word key }
{
    match key {
        ConfigKey::Address => "bad config: address",
        ConfigKey::Listen => "bad config: listen",
        ConfigKey::Turns => "bad config: turns",
        ConfigKey::Wait => "bad config: wait",
        ConfigKey::Size => "bad config: size",
        ConfigKey::Roots => "bad config: roots",
        ConfigKey::Link => "bad config: link",
        ConfigKey::Want => "bad config: want",
        ConfigKey::Beacon => "bad config: beacon",
        ConfigKey::Reader => "bad config: reader",
        ConfigKey::Unknown => "bad config: unknown",
        ConfigKey::Toml => "bad config: toml",
    }
}

/// A copy of that line.
pub fn fault_line(alloc: Global, status: &Status) -> Result<Chars, OutOfMemory>
    ensures { IfOk result (λ line. line ≡ fault_line_of status.now) }
{
    Chars::of(alloc, fault_text(status))
}
