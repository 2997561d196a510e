//! How long the messages of a node may be.

ghost use Rattle.std.specs.Prelude.{◌≡◌, ◌≤◌, ◌||◌, not, nat_lt, IfSome, IsSome};

use std::marker::Model;

/// The most bytes of a message, from 2048 to 65535.
#[derive(Clone, Copy, Debug, PartialEq, Eq)]
pub(crate) struct MessageLimit {
    bytes: u32,
}

impl Model for MessageLimit {
    ghost use Rattle.std.specs.Prelude.{ℕ, ◌≤◌};

    ghost Value = { ℕ };

    ghost view = { λ a. a.bytes };

    ghost invariant = { λ a. (2048 ≤ a.bytes) × (a.bytes ≤ 65535) };

    ghost inverse = { λ n. record { bytes = n } };
}

impl MessageLimit {
    /// The limit of so many bytes, where there can be one.
    pub(crate) fn of(bytes: u32) -> Option<MessageLimit>
        ensures some { IfSome result (λ limit. limit ≡ bytes) }
        ensures none { (2048 ≤ bytes) → (bytes ≤ 65535) → IsSome result }
    {
        if MessageLimit::allows(bytes) {
            Some(MessageLimit { bytes })
        } else {
            None
        }
    }

    /// Whether there can be a limit of so many bytes.
    pub(crate) fn allows(bytes: u32) -> bool
        ensures { result ≡ not (nat_lt bytes 2048 || nat_lt 65535 bytes) }
    {
        (2048..=65535).contains(&bytes)
    }

    /// How many bytes.
    pub(crate) fn bytes(self) -> u32
        ensures is { result ≡ self }
        ensures least { 2048 ≤ result }
        ensures most { result ≤ 65535 }
    {
        self.bytes
    }
}
