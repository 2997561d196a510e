//! What the first message of a stream asks for.

ghost use Rattle.std.specs.Prelude.{◌≡◌, ℕ};
ghost use Rattle.grasp_core.specs.First.{first_heard};
ghost use Rattle.grasp_model_node.specs.Hear.{hear_first};
ghost use Rattle.grasp_model_node.specs.Node.{NodeState};

use grasp_types::{Address, Answer, Message, Objective};

/// What the first message of a stream asks for.
#[derive(Drop)]
pub(crate) enum First {
    /// Nothing yet.
    Nothing,
    /// A negotiation.
    Request {
        session: u32,
        objective: Objective,
    },
    /// A synchronization.
    Synchronization {
        session: u32,
        objective: Objective,
    },
    /// Nothing: it tells what a discovery asked for.
    Response {
        session: u32,
        initiator: Address,
        ttl: u32,
        answer: Answer,
        objective: Option<Objective>,
    },
    /// The end.
    Over,
    /// What may not come first.
    Strange {
        session: u32,
    },
}

/// What a message asks for that comes first.
pub(crate) fn first_of(message: Message) -> First
    ensures { (n : NodeState) → (stream : ℕ) → hear_first n stream message ≡ first_heard n stream result }
{
    match message {
        Message::Noop => First::Nothing,
        Message::ReqNeg { session, objective } => First::Request { session, objective },
        Message::ReqSyn { session, objective } => First::Synchronization { session, objective },
        Message::Response {
            session,
            initiator,
            ttl,
            answer,
            objective,
        } => First::Response {
            session,
            initiator,
            ttl,
            answer,
            objective,
        },
        Message::Invalid { .. } => First::Over,
        Message::Discovery { session, .. } => First::Strange { session },
        Message::Negotiate { session, .. } => First::Strange { session },
        Message::End { session, .. } => First::Strange { session },
        Message::Wait { session, .. } => First::Strange { session },
        Message::Synch { session, .. } => First::Strange { session },
        Message::Flood { session, .. } => First::Strange { session },
    }
}
