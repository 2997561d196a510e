//! What an agent of PrefixManager does again and again.

ghost use Rattle.std.specs.Prelude.{◌≡◌, codes, IfOk};
ghost use Rattle.grasp_agent.specs.Calls.{duty_call, objective_name};

use grasp_cbor::{Chars, OutOfMemory};
use grasp_types::{Call, Handle};
use std::alloc::Global;

/// A duty of an agent.
#[derive(Clone, Copy, Debug, PartialEq, Eq)]
pub enum Duty {
    /// To listen for requests.
    Listen,
    /// To ask how the session of its want stands.
    Want(Handle),
    /// To ask how the session of its return stands.
    Return(Handle),
    /// To ask how the giving session at this place stands.
    Give { place: u64, handle: Handle },
}

impl Duty {
    /// The call that does it.
    pub(crate) fn call(self, alloc: Global) -> Result<Call, OutOfMemory>
        ensures { IfOk result (λ call. call ≡ duty_call self) }
    {
        match self {
            Duty::Listen => Ok(Call::ListenNegotiate {
                name: objective_name(alloc)?,
            }),
            Duty::Want(handle) | Duty::Return(handle) => Ok(Call::Poll { handle }),
            Duty::Give { place: _, handle } => Ok(Call::Poll { handle }),
        }
    }
}

/// The name of the agent's objective (RFC 8992, section 5.1).
#[tactic(auto, unfolding(crate::specs::Calls::objective_name))]
pub(crate) fn objective_name(alloc: Global) -> Result<Chars, OutOfMemory>
    ensures { IfOk result (λ name. name ≡ objective_name) }
{
    Chars::of(alloc, "PrefixManager")
}
