//! What an agent of PrefixManager gives back.

ghost use Rattle.std.specs.Prelude.{◌≡◌, IfOk};
ghost use Rattle.grasp_agent.specs.Calls.{return_call};
ghost use Rattle.grasp_agent.specs.States.{is_returning, back_session, unsent_of};

use crate::duty::objective_name;
use crate::value::return_value;
use grasp_cbor::OutOfMemory;
use grasp_types::{Call, Handle, Locator, Plain, Prefix};
use std::alloc::Global;

/// The loop count of the request: it is itself the offer, and no step may follow.
const LOOPS: u8 = 1;

/// After so many milliseconds without a message the session of a return times out.
const TIMEOUT: u32 = 60_000;

/// Why a return isn't taken, in the order of the tests.
#[derive(Clone, Copy, Debug, PartialEq, Eq)]
pub enum ReturnFault {
    /// The return of this prefix isn't finished.
    Busy { prefix: Prefix },
    /// An address of the prefix isn't free.
    NotFree,
    /// The pool has room for fewer than 128 prefixes.
    Full,
}

/// A return that isn't finished. Its prefix is reserved.
#[derive(Debug, Drop)]
pub(crate) struct Return {
    pub(crate) prefix: Prefix,
    /// To whom it goes back.
    pub(crate) peer: Locator,
    /// Its session, once it was requested.
    pub(crate) session: Option<Handle>,
}

impl Return {
    /// Its request.
    pub(crate) fn call(&self, alloc: Global) -> Result<Call, OutOfMemory>
        ensures { IfOk result (λ call. call ≡ return_call self.now) }
    {
        Ok(Call::RequestNegotiate {
            name: objective_name(alloc)?,
            value: return_value(alloc, self.prefix)?,
            loops: LOOPS,
            timeout: TIMEOUT,
            dry: false,
            peer: self.peer.copy()?,
        })
    }
}

/// The session of a return, where it was requested.
pub(crate) fn back_of(back: &Option<Return>) -> Option<Handle>
    ensures { result ≡ back_session back.now }
{
    match back {
        Some(back) => back.session,
        None => None,
    }
}

/// Whether there is a return that wasn't requested.
pub(crate) fn is_returning(back: &Option<Return>) -> bool
    ensures { result ≡ is_returning back.now }
{
    match back {
        Some(back) => back.session.is_none(),
        None => false,
    }
}

/// The prefix of a return that wasn't requested.
pub(crate) fn unsent_of(back: &Option<Return>) -> Option<Prefix>
    ensures { result ≡ unsent_of back.now }
{
    match back {
        Some(back) if back.session.is_none() => Some(back.prefix),
        _ => None,
    }
}
