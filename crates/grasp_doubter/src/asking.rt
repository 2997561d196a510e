//! A question that a doubter asks.

ghost use Rattle.std.specs.Prelude.{◌≡◌, IfOk};
ghost use Rattle.grasp_doubter.specs.Calls.{ask_call};
ghost use Rattle.grasp_doubter.specs.States.{ask_session, is_unasked};

use crate::question::{objective_name, question_value};
use grasp_cbor::OutOfMemory;
use grasp_types::{Address, Call, Handle, Locator, Plain, Prefix};
use std::alloc::Global;

/// The loop count of the request: no step may follow.
const LOOPS: u8 = 1;

/// After so many milliseconds without a message the session of a question times out.
const TIMEOUT: u32 = 60_000;

/// Why a question isn't taken, in the order of the tests.
#[derive(Clone, Copy, Debug, PartialEq, Eq)]
pub enum AskFault {
    /// The question of this prefix isn't finished.
    Busy { prefix: Prefix },
    /// The prefix isn't in doubt.
    NotDoubtful,
    /// No step has offered the prefix since it was last reserved.
    NotGiven,
}

/// A question that isn't finished.
#[derive(Debug, Drop)]
pub struct Ask {
    /// The prefix in doubt.
    pub prefix: Prefix,
    /// The address of the node that is asked.
    pub address: Address,
    /// Where it is asked.
    pub peer: Locator,
    /// The session, once it was requested.
    pub session: Option<Handle>,
}

impl Ask {
    /// Its request.
    pub(crate) fn call(&self, alloc: Global) -> Result<Call, OutOfMemory>
        ensures { IfOk result (λ call. call ≡ ask_call self.now) }
    {
        Ok(Call::RequestNegotiate {
            name: objective_name(alloc)?,
            value: question_value(alloc, self.address, self.prefix)?,
            loops: LOOPS,
            timeout: TIMEOUT,
            dry: false,
            peer: self.peer.copy()?,
        })
    }
}

/// The session of a question, where it was requested.
pub(crate) fn session_of(ask: &Option<Ask>) -> Option<Handle>
    ensures { result ≡ ask_session ask.now }
{
    match ask {
        Some(ask) => ask.session,
        None => None,
    }
}

/// Whether there is a question that wasn't requested.
pub(crate) fn is_unasked(ask: &Option<Ask>) -> bool
    ensures { result ≡ is_unasked ask.now }
{
    match ask {
        Some(ask) => ask.session.is_none(),
        None => false,
    }
}
