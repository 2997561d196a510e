//! What a registry keeps of an agent, and of an objective.

ghost use Rattle.std.specs.Prelude.{◌≡◌};
ghost use Rattle.grasp_asa.specs.Registrations.{is_agent_named, is_named, is_of};

use grasp_cbor::Chars;
use grasp_types::{Flags, Value};

/// An agent.
#[derive(Debug, Drop)]
pub(crate) struct Agent {
    /// At least 1.
    pub(crate) number: u32,
    pub(crate) name: Chars,
}

impl Agent {
    /// Whether it has this name.
    pub(crate) fn is_named(&self, name: &Chars) -> bool
        ensures { result ≡ is_agent_named name.now self.now }
    {
        self.name.text() == name.text()
    }
}

/// An objective that an agent has registered.
#[derive(Debug, Drop)]
pub(crate) struct Registered {
    /// The number of that agent.
    pub(crate) owner: u32,
    pub(crate) name: Chars,
    pub(crate) flags: Flags,
    /// Whether its agent listens for requests to negotiate it.
    pub(crate) listening: bool,
    /// The value that its agent offers for synchronization.
    pub(crate) offered: Option<Value>,
}

impl Registered {
    /// Whether it has this name.
    pub(crate) fn is_named(&self, name: &Chars) -> bool
        ensures { result ≡ is_named name.now self.now }
    {
        self.name.text() == name.text()
    }

    /// Whether this agent has registered it under this name.
    pub(crate) fn is_of(&self, asa: u32, name: &Chars) -> bool
        ensures { result ≡ is_of asa name.now self.now }
    {
        self.owner == asa && self.is_named(name)
    }
}
