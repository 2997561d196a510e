//! Why a text is no configuration of a node that serves.

ghost use Rattle.std.specs.Prelude.{◌≡◌};
ghost use Rattle.grasp_config.specs.ServeFaults.{serve_key_word, serve_fault_of};

use crate::fault::{ConfigFault, ConfigKey, key_word};
use grasp_cbor::OutOfMemory;

/// What can be bad in the configuration of a node that serves, in the order in which it is looked at.
#[derive(Clone, Copy, Debug, PartialEq, Eq)]
pub enum ServeKey {
    /// A key of the node's own part, or the text is no TOML.
    Node { key: ConfigKey },
    /// A beacon can't be flooded: its name is another's too or that of the prefix agent's objective, or a message has no
    /// room for its flood.
    Floods,
    /// The table `serve` is absent, or is no table.
    Serve,
    /// The path of the socket at which the node is controlled.
    Control,
    /// The path of the socket for guests.
    Guests,
    /// Who may open both sockets.
    Mode,
    /// The path of the store, or it is absent though the pool isn't to be forgotten.
    Store,
    /// Whether the pool is to be forgotten, or it is to be though there is a store.
    Forget,
    /// The locator that others are told.
    Locator,
    /// Who may open streams.
    Allow,
    /// The most open streams of one address.
    Streams,
    /// For how long a stream may give nothing.
    Silence,
    /// After how long a want is tried again.
    Retry,
    /// After how long it is at most.
    RetryMost,
    /// How long it is between two floods of a beacon.
    Every,
    /// How long it is from tick to tick.
    Tick,
    /// The most visitors at once.
    Visitors,
    /// How much is logged.
    Log,
    /// The name that stands in the log.
    Name,
    /// A key in the table `serve` that it doesn't have.
    Unknown,
}

/// Why a text is no configuration of a node that serves, or wasn't read.
#[derive(Clone, Copy, Debug, PartialEq, Eq)]
pub enum ServeFault {
    /// The first key that is bad.
    BadServe { key: ServeKey },
    /// There was no memory.
    OutOfMemory,
}

/// The word for a key: that of the configuration's key, or `serve.` and that of the key in the table `serve`.
pub fn serve_key_word(key: ServeKey) -> &'static str
    ensures { result.now ≡ serve_key_word key }
{
    match key {
        ServeKey::Node { key } => key_word(key),
        ServeKey::Floods => "beacon",
        ServeKey::Serve => "serve",
        ServeKey::Control => "serve.control",
        ServeKey::Guests => "serve.guests",
        ServeKey::Mode => "serve.mode",
        ServeKey::Store => "serve.store",
        ServeKey::Forget => "serve.forget",
        ServeKey::Locator => "serve.locator",
        ServeKey::Allow => "serve.allow",
        ServeKey::Streams => "serve.streams",
        ServeKey::Silence => "serve.silence",
        ServeKey::Retry => "serve.retry",
        ServeKey::RetryMost => "serve.retry_most",
        ServeKey::Every => "serve.every",
        ServeKey::Tick => "serve.tick",
        ServeKey::Visitors => "serve.visitors",
        ServeKey::Log => "serve.log",
        ServeKey::Name => "serve.name",
        ServeKey::Unknown => "serve.unknown",
    }
}

impl From<OutOfMemory> for ServeFault {
    ghost use Rattle.std.specs.Prelude.{◌≡◌};
    ghost use Rattle.grasp_config.specs.declared.serve_fault.ServeFault.TheVariants as faults;

    ghost from_gives = { λ _ e. e ≡ faults.OutOfMemory };

    fn from(_: OutOfMemory) -> ServeFault {
        ServeFault::OutOfMemory
    }
}

/// The fault of a node that serves, where its own part isn't read.
pub(crate) fn serve_fault_of(fault: ConfigFault) -> ServeFault
    ensures { result ≡ serve_fault_of fault }
{
    match fault {
        ConfigFault::BadConfig { key } => ServeFault::BadServe {
            key: ServeKey::Node { key },
        },
        ConfigFault::OutOfMemory => ServeFault::OutOfMemory,
    }
}
