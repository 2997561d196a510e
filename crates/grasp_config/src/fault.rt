//! Why a text is no configuration.

ghost use Rattle.std.specs.Prelude.{◌≡◌};
ghost use Rattle.grasp_config.specs.Faults.{key_word};

use grasp_cbor::OutOfMemory;

/// What can be bad in a configuration, in the order in which it is looked at, but that `Toml` comes first.
#[derive(Clone, Copy, Debug, PartialEq, Eq)]
pub enum ConfigKey {
    /// The address of the node.
    Address,
    /// Where it listens.
    Listen,
    /// How many turns it makes.
    Turns,
    /// For how long it waits in each turn.
    Wait,
    /// The most bytes of a message.
    Size,
    /// The prefixes that it begins with.
    Roots,
    /// Its links and the neighbours on them.
    Link,
    /// The prefixes that it asks for.
    Want,
    /// What it announces.
    Beacon,
    /// What it reads, or there are more than 7 beacons and readers together.
    Reader,
    /// A key at the top that a configuration doesn't have.
    Unknown,
    /// The text isn't UTF-8, or is no TOML.
    Toml,
}

/// Why a text is no configuration, or wasn't read.
#[derive(Clone, Copy, Debug, PartialEq, Eq)]
pub enum ConfigFault {
    /// The first key that is bad.
    BadConfig { key: ConfigKey },
    /// There was no memory.
    OutOfMemory,
}

/// The word for a key: in lower case.
pub fn key_word(key: ConfigKey) -> &'static str
    ensures { result.now ≡ key_word key }
{
    match key {
        ConfigKey::Address => "address",
        ConfigKey::Listen => "listen",
        ConfigKey::Turns => "turns",
        ConfigKey::Wait => "wait",
        ConfigKey::Size => "size",
        ConfigKey::Roots => "roots",
        ConfigKey::Link => "link",
        ConfigKey::Want => "want",
        ConfigKey::Beacon => "beacon",
        ConfigKey::Reader => "reader",
        ConfigKey::Unknown => "unknown",
        ConfigKey::Toml => "toml",
    }
}

impl From<OutOfMemory> for ConfigFault {
    ghost use Rattle.std.specs.Prelude.{◌≡◌};
    ghost use Rattle.grasp_config.specs.declared.fault.ConfigFault.TheVariants as faults;

    ghost from_gives = { λ _ e. e ≡ faults.OutOfMemory };

    fn from(_: OutOfMemory) -> ConfigFault {
        ConfigFault::OutOfMemory
    }
}
