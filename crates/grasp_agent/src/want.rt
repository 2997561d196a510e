//! What an agent of PrefixManager wants, and how a want ends.

ghost use Rattle.std.specs.Prelude.{◌≡◌, true, false, is_none, IfOk};
ghost use Rattle.grasp_agent.specs.Calls.{want_call};
ghost use Rattle.grasp_agent.specs.Replies.{want_end};
ghost use Rattle.grasp_agent.specs.States.{is_asking, want_session};

use crate::duty::objective_name;
use crate::value::{length_value, offered_prefix};
use grasp_cbor::OutOfMemory;
use grasp_types::{ApiRefused, By, Call, Handle, Locator, Outcome, Plain, Prefix};
use std::alloc::Global;

/// The loop count of a request.
const LOOPS: u8 = 6;

/// After so many milliseconds without a message the session of a want times out.
const TIMEOUT: u32 = 60_000;

/// Why a want isn't taken, in the order of the tests.
#[derive(Clone, Copy, Debug, PartialEq, Eq)]
pub enum WantFault {
    /// This want isn't finished.
    Busy { length: u8, longest: u8 },
    /// The pool has no room for a prefix.
    Full,
}

/// How a want ended.
#[derive(Clone, Copy, Debug, PartialEq, Eq)]
pub enum WantEnd {
    /// This prefix is held.
    Held(Prefix),
    /// One end declined.
    Declined,
    /// The session's deadline passed.
    TimedOut,
    /// The stream broke.
    Broken,
    /// The node had no memory for what came.
    OutOfMemory,
    /// One end gave up, or what was agreed on is no prefix.
    Invalid,
    /// The peer accepted the request itself, which names no prefix.
    Empty,
    /// The request was refused.
    Refused(ApiRefused),
}

/// A want that isn't finished.
#[derive(Debug, Drop)]
pub(crate) struct Want {
    /// The length that is asked for, 1 to 128.
    pub(crate) length: u8,
    /// The greatest length that is taken, at most 128.
    pub(crate) longest: u8,
    /// Whom it asks.
    pub(crate) peer: Locator,
    /// Its session, once it was requested.
    pub(crate) session: Option<Handle>,
}

impl Want {
    /// Its request.
    pub(crate) fn call(&self, alloc: Global) -> Result<Call, OutOfMemory>
        ensures { IfOk result (λ call. call ≡ want_call self.now) }
    {
        Ok(Call::RequestNegotiate {
            name: objective_name(alloc)?,
            value: length_value(alloc, self.length)?,
            loops: LOOPS,
            timeout: TIMEOUT,
            dry: false,
            peer: self.peer.copy()?,
        })
    }
}

impl WantEnd {
    /// How a want ends with its session.
    pub(crate) fn of(outcome: &Outcome) -> WantEnd
        ensures { result ≡ want_end outcome.now }
    {
        match outcome {
            Outcome::Agreed {
                by: By::Mine,
                objective,
            } => match offered_prefix(&objective.value) {
                Some(prefix) => WantEnd::Held(prefix),
                None => WantEnd::Invalid,
            },
            Outcome::Agreed {
                by: By::Theirs,
                objective: _,
            } => WantEnd::Empty,
            Outcome::Declined { .. } => WantEnd::Declined,
            Outcome::Synchronized { .. } => WantEnd::Invalid,
            Outcome::TimedOut { .. } => WantEnd::TimedOut,
            Outcome::Broken => WantEnd::Broken,
            Outcome::OutOfMemory => WantEnd::OutOfMemory,
            Outcome::Invalid { .. } => WantEnd::Invalid,
        }
    }
}

/// The session of a want, where it was requested.
pub(crate) fn session_of(want: &Option<Want>) -> Option<Handle>
    ensures { result ≡ want_session want.now }
{
    match want {
        Some(want) => want.session,
        None => None,
    }
}

/// Whether there is a want that wasn't requested.
pub(crate) fn is_asking(want: &Option<Want>) -> bool
    ensures { result ≡ is_asking want.now }
{
    match want {
        Some(want) => want.session.is_none(),
        None => false,
    }
}
