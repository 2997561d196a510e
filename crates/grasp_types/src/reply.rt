//! The replies of a node.

ghost use Rattle.std.proofs.Common.{rules};

use crate::{
    Address, ApiRefused, FloodReads, Handle, Locators, Objective, Outputs, Plain, Progress,
};

/// The answer to an agent's call that wasn't refused.
#[derive(Clone, Debug, Drop)]
pub enum ApiAnswer {
    /// The new agent's number.
    Asa(u32),
    /// It is done.
    Done,
    /// The session that began.
    Started(Handle),
    /// A search began.
    Searching,
    /// Where the objective can be reached.
    Found(Locators),
    /// A search ended and found nothing.
    Nothing,
    /// Nothing yet.
    NotYet,
    /// A session that a peer began, with the address told at its stream's opening, and the request.
    Incoming {
        handle: Handle,
        from: Address,
        objective: Objective,
    },
    /// How the session stands.
    Polled(Progress),
    /// What floods told.
    Floods(FloodReads),
}

/// The answer of a node to one input.
#[derive(Clone, Debug, Drop)]
pub enum Reply {
    /// The agent's call was answered.
    Api(ApiAnswer),
    /// The agent's call was refused.
    Refused(ApiRefused),
    /// What a drain took from the queue.
    Outputs(Outputs),
    /// The input was taken.
    Taken,
    /// The stream was turned away.
    Turned,
    /// There was no memory for an input that isn't an agent's call.
    OutOfMemory,
}

impl Plain for ApiAnswer {
    ghost clones_are_same = { Prim.search rules };
}

impl Plain for Reply {
    ghost clones_are_same = { Prim.search rules };
}
