//! What a datagram carries.

ghost use Rattle.std.specs.Prelude.{◌≡◌, Some};
ghost use Rattle.grasp_discovery.specs.declared.answers.Cause.{Cause};
ghost use Rattle.grasp_types.specs.declared.links.Neighbour.{Neighbour};
ghost use Rattle.grasp_core.specs.Carried.{after_carried};
ghost use Rattle.grasp_model_node.specs.Datagrams.{datagram_of};
ghost use Rattle.grasp_model_node.specs.Node.{NodeState};

use grasp_types::{Address, FloodParts, Message, Objective};

/// What a datagram carries: only discoveries and floods come by datagram.
#[derive(Drop)]
pub(crate) enum Carried {
    /// A discovery.
    Discovery {
        session: u32,
        initiator: Address,
        objective: Objective,
    },
    /// A flood.
    Flood {
        session: u32,
        initiator: Address,
        ttl: u32,
        parts: FloodParts,
    },
    /// Another message, which changes nothing.
    Other,
}

/// What a message is to a node that comes by datagram.
pub(crate) fn carried_of(message: Message) -> Carried
    ensures { (n : NodeState) → (cause : Cause) → (neighbour : Neighbour)
        → datagram_of n cause neighbour (Some message) ≡ after_carried n cause neighbour result }
{
    match message {
        Message::Discovery {
            session,
            initiator,
            objective,
        } => Carried::Discovery {
            session,
            initiator,
            objective,
        },
        Message::Flood {
            session,
            initiator,
            ttl,
            parts,
        } => Carried::Flood {
            session,
            initiator,
            ttl,
            parts,
        },
        Message::Noop => Carried::Other,
        Message::Response { .. } => Carried::Other,
        Message::ReqNeg { .. } => Carried::Other,
        Message::ReqSyn { .. } => Carried::Other,
        Message::Negotiate { .. } => Carried::Other,
        Message::End { .. } => Carried::Other,
        Message::Wait { .. } => Carried::Other,
        Message::Synch { .. } => Carried::Other,
        Message::Invalid { .. } => Carried::Other,
    }
}
