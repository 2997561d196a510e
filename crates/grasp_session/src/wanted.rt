//! Which session is looked for.

ghost use Rattle.std.specs.Prelude.{◌≡◌};
ghost use Rattle.grasp_session.specs.declared.session.Session.{Session};
ghost use Rattle.grasp_session.specs.Stands.{fits_in};

use crate::session::Session;
use grasp_cbor::Chars;

/// What a session has to be.
#[derive(Clone, Copy)]
pub(crate) enum Wanted<'a> {
    /// It lies on this stream.
    OnStream(u64),
    /// It has no outcome, and this reading has reached its deadline.
    Due(u64),
    /// No agent has taken it, and its objective has this name.
    Untaken(&'a Chars),
    /// The same, and its number is above this one.
    UntakenAbove(&'a Chars, u64),
    /// This agent holds it.
    OwnedBy(u32),
    /// This end requested it under this session number.
    Requested(u32),
}

impl<'a> Wanted<'a> {
    /// Whether this session is one.
    pub(crate) fn fits(&self, session: &Session) -> bool
        ensures { result ≡ fits_in self.now session.now }
    {
        match *self {
            Wanted::OnStream(stream) => session.stream == stream,
            Wanted::Due(now) => session.ending.is_none() && session.deadline <= now,
            Wanted::Untaken(name) => {
                session.owner == 0 && session.request.name.bytes() == name.bytes()
            }
            Wanted::UntakenAbove(name, number) => {
                number < session.number
                    && session.owner == 0
                    && session.request.name.bytes() == name.bytes()
            }
            Wanted::OwnedBy(owner) => session.owner == owner,
            Wanted::Requested(number) => session.requester && session.session == number,
        }
    }
}
