//! What a doubter does again and again, and the answer that it owes.

ghost use Rattle.std.specs.Prelude.{◌≡◌, IfOk};
ghost use Rattle.grasp_doubter.specs.Calls.{act_call, duty_call};

use crate::question::{objective_name, unknown};
use grasp_cbor::OutOfMemory;
use grasp_types::{Call, Handle, Verdict};
use std::alloc::Global;

/// An answer that was decided and isn't given yet.
#[derive(Clone, Copy, Debug, PartialEq, Eq)]
pub struct DoubtAct {
    /// The session of the question.
    pub handle: Handle,
    /// Whether it is accepted, which means that the prefix was never accepted here.
    pub accepts: bool,
}

/// A duty of a doubter.
#[derive(Clone, Copy, Debug, PartialEq, Eq)]
pub enum DoubtDuty {
    /// To listen for questions.
    Listen,
    /// To ask how the session of its own question stands.
    Ask(Handle),
    /// To ask how the answering session at this place stands.
    Answer { place: u64, handle: Handle },
}

impl DoubtAct {
    /// The call that gives it.
    pub(crate) fn call(self, alloc: Global) -> Result<Call, OutOfMemory>
        ensures { IfOk result (λ call. call ≡ act_call self) }
    {
        let verdict = if self.accepts {
            Verdict::Accept
        } else {
            Verdict::Decline(Some(unknown(alloc)?))
        };
        Ok(Call::EndNegotiate {
            handle: self.handle,
            verdict,
        })
    }
}

impl DoubtDuty {
    /// The call that does it.
    pub(crate) fn call(self, alloc: Global) -> Result<Call, OutOfMemory>
        ensures { IfOk result (λ call. call ≡ duty_call self) }
    {
        match self {
            DoubtDuty::Listen => Ok(Call::ListenNegotiate {
                name: objective_name(alloc)?,
            }),
            DoubtDuty::Ask(handle) => Ok(Call::Poll { handle }),
            DoubtDuty::Answer { place: _, handle } => Ok(Call::Poll { handle }),
        }
    }
}
