//! What stands in front of each agent's calls.

/// It is asked before each call that an agent makes in a turn, in the agent's own thread.
pub trait Gate {
    /// Before this call of this agent. Agents are numbered from 1, in their order, and the 255th and all behind it are 255.
    /// An agent's calls are numbered from 0.
    fn before(&self, agent: u8, call: u64);
}

/// A gate that does nothing.
#[derive(Drop)]
pub struct OpenGate;

impl Gate for OpenGate {
    fn before(&self, _agent: u8, _call: u64) {}
}
