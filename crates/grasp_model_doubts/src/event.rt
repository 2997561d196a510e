//! What happens in a network of doubters.

use grasp_model_network::Event;
use grasp_types::Prefix;

/// What happens in a network in which each node has a doubter.
#[derive(Debug, Drop)]
pub enum DoubtEvent {
    /// An event, which is no call as agent 1 or 2. The node's doubter is told each call of the node's agent.
    Plain(Event),
    /// A node's doubter makes its next call, and takes the reply. Where that says that a prefix was never accepted, the prefix is settled.
    Doubter { node: u8 },
    /// A node's doubter is to ask whether this prefix, which the node has in doubt, was ever accepted. The peer is where it asks.
    Ask { node: u8, prefix: Prefix, peer: u8 },
}
