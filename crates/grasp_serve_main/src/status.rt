//! How the program ends where its node serves.

ghost use Rattle.std.specs.Prelude.{◌≡◌};
ghost use Rattle.grasp_serve_main.specs.Program.{number_of};

use grasp_config::ServeKey;
use grasp_store::KeepFault;

/// How a call of the program ended.
#[derive(Clone, Copy, Debug, PartialEq, Eq)]
pub enum Status {
    /// A visitor stopped the node.
    Stopped,
    /// The words are no call of the program.
    Usage,
    /// This key is the first that is bad in the configuration.
    BadServe { key: ServeKey },
    /// A read failed.
    ReadFault,
    /// There was no memory for the call.
    OutOfMemory,
    /// The configuration has more than 65,536 bytes.
    TooLarge,
    /// The links couldn't be opened.
    LinkFault,
    /// The store that the configuration names isn't opened.
    NoStore,
    /// The store has a fault. Nothing was sent behind it.
    StoreFault { fault: KeepFault },
    /// The desk couldn't be opened.
    DeskFault,
}

impl Status {
    /// The number that the program exits with.
    pub fn number(self) -> u8
        ensures { result ≡ number_of self }
    {
        match self {
            Status::Stopped => 0,
            Status::Usage => 2,
            Status::BadServe { .. } => 3,
            Status::ReadFault => 4,
            Status::OutOfMemory => 6,
            Status::TooLarge => 7,
            Status::LinkFault => 8,
            Status::NoStore => 9,
            Status::StoreFault { .. } => 9,
            Status::DeskFault => 10,
        }
    }
}
