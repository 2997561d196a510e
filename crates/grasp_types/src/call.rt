//! The calls of agents (RFC 8991, section 2.3).

ghost use Rattle.std.proofs.Common.{rules};

use crate::{Address, Flags, Handle, Kind, Locator, Plain, Value, Verdict};
use grasp_cbor::Chars;

/// A call of an agent at its node. Times are in milliseconds.
#[derive(Clone, Debug, Drop)]
pub enum Call {
    /// Registers an agent.
    RegisterAsa {
        name: Chars,
    },
    /// Deregisters the calling agent with all that it has.
    DeregisterAsa,
    /// Registers an objective of the agent.
    RegisterObjective {
        name: Chars,
        flags: Flags,
    },
    /// Deregisters it.
    DeregisterObjective {
        name: Chars,
    },
    /// Asks where an objective can be reached, and searches where that isn't known.
    Discover {
        name: Chars,
        kind: Kind,
        loops: u8,
        timeout: u32,
    },
    /// Begins a negotiation with a peer.
    RequestNegotiate {
        name: Chars,
        value: Value,
        loops: u8,
        timeout: u32,
        dry: bool,
        peer: Locator,
    },
    /// Takes the next negotiation that a peer began.
    ListenNegotiate {
        name: Chars,
    },
    /// Listens no longer.
    StopListenNegotiate {
        name: Chars,
    },
    /// Offers another value.
    NegotiateStep {
        handle: Handle,
        value: Value,
    },
    /// Asks the peer for patience.
    NegotiateWait {
        handle: Handle,
        millis: u32,
    },
    /// Accepts the peer's last offer, or declines.
    EndNegotiate {
        handle: Handle,
        verdict: Verdict,
    },
    /// Ends a session as invalid.
    SendInvalid {
        handle: Handle,
        detail: Option<Value>,
    },
    /// Asks how a session stands.
    Poll {
        handle: Handle,
    },
    /// Asks a peer for its value.
    Synchronize {
        name: Chars,
        loops: u8,
        timeout: u32,
        peer: Locator,
    },
    /// Offers a value to those who ask for it.
    ListenSynchronize {
        name: Chars,
        value: Value,
    },
    /// Offers it no longer.
    StopListenSynchronize {
        name: Chars,
    },
    /// Floods a value. A lifetime `ttl` of 0 never ends.
    Flood {
        name: Chars,
        value: Value,
        ttl: u32,
        loops: u8,
    },
    /// Reads what floods told of an objective.
    GetFlood {
        name: Chars,
    },
    /// Forgets what a node flooded of an objective.
    ExpireFlood {
        name: Chars,
        initiator: Address,
    },
}

impl Plain for Call {
    ghost clones_are_same = { Prim.search rules };
}
