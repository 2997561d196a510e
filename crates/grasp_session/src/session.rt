//! One session of this node, of which only what it decides by is kept.

ghost use Rattle.std.specs.Prelude.{◌≡◌, ℕ, true, bytes_eq, is_none, ◌==◌, ◌+◌, ◌-◌, ◌<◌, max, Some, None, IfOk, OnErr};
ghost use Rattle.grasp_types.specs.declared.message.Message.TheVariants.{End};
ghost use Rattle.grasp_types.specs.Reading.{reading_after};
ghost use Rattle.grasp_session.specs.Transcript.{SayStep, SayWait, SayEnd, SayInvalid, receive, after_received, message_of, having_said};
ghost use Rattle.grasp_session.specs.Transcript.{is_negotiation, with_mark};
ghost use Rattle.grasp_session.specs.declared.answer.Received.TheVariants.{Bad};
ghost use Rattle.grasp_session.specs.Sessions.{SessionState, with_transcript, begun_state, MayStarve};
ghost use Rattle.grasp_session.specs.Keeps.{Keeps, refusal_in, offer_in, awaits_in, steps_in, mark_of, leaves_in, ending_of, ended_with, outcome_with};

use crate::answer::{Act, Received, SessionRefused};
use crate::begin::Begin;
use grasp_cbor::{Chars, OutOfMemory};
use grasp_types::{By, Kind, Message, Objective, Outcome, Plain, Value, Verdict, reading_after};

/// What came of a session, without the objective that was agreed on.
#[derive(Drop)]
pub(crate) enum Ending {
    Agreed(By),
    Declined(By, Option<Chars>),
    Synchronized(Objective),
    TimedOut { deadline: u64, now: u64 },
    Broken,
    OutOfMemory,
    Invalid(By),
}

impl Ending {
    /// By this end's acceptance or decline. An agent's session keeps the reason, which is copied: one that no agent has
    /// taken is gone then.
    pub(crate) fn of(owner: u32, verdict: &Verdict) -> Result<Ending, OutOfMemory>
        ensures kept { IfOk result (λ ending. 0 < owner → ending ≡ ending_of verdict.now) }
        ensures wanted { OnErr result (MayStarve owner verdict.now) }
    {
        match verdict {
            Verdict::Accept => Ok(Ending::Agreed(By::Mine)),
            Verdict::Decline(Some(reason)) if owner != 0 => {
                Ok(Ending::Declined(By::Mine, Some(reason.copy()?)))
            }
            Verdict::Decline(_) => Ok(Ending::Declined(By::Mine, None)),
        }
    }

    /// The outcome, where this is the last offer of either end.
    fn with(self, objective: Objective) -> Outcome
        ensures { result ≡ outcome_with objective self }
    {
        match self {
            Ending::Agreed(by) => Outcome::Agreed { by, objective },
            Ending::Declined(by, reason) => Outcome::Declined { by, reason },
            Ending::Synchronized(objective) => Outcome::Synchronized { objective },
            Ending::TimedOut { deadline, now } => Outcome::TimedOut { deadline, now },
            Ending::Broken => Outcome::Broken,
            Ending::OutOfMemory => Outcome::OutOfMemory,
            Ending::Invalid(by) => Outcome::Invalid { by },
        }
    }
}

/// What ends a session from outside.
#[derive(Clone, Copy)]
pub(crate) enum Cause {
    /// Its deadline, at this reading.
    Expired(u64),
    /// Its stream was closed.
    Closed,
    /// There was no memory for what came.
    Starved,
    /// A bad message came.
    Faulty,
}

/// What a session decides by.
#[derive(Drop)]
pub(crate) struct Session {
    pub(crate) number: u64,
    pub(crate) owner: u32,
    pub(crate) stream: u64,
    pub(crate) kind: Kind,
    pub(crate) requester: bool,
    pub(crate) session: u32,
    pub(crate) timeout: u32,
    pub(crate) request: Objective,
    // the last step's objective
    pub(crate) offer: Option<Objective>,
    pub(crate) my_turn: bool,
    pub(crate) waits: u8,
    pub(crate) deadline: u64,
    pub(crate) ending: Option<Ending>,
}

impl Session {
    /// A session that begins with its request at this reading.
    pub(crate) fn begin(now: u64, number: u64, begin: Begin) -> Session
        ensures { Keeps result (begun_state now number begin) }
    {
        Session {
            number,
            owner: begin.owner,
            stream: begin.stream,
            kind: begin.kind,
            requester: begin.requester,
            session: begin.session,
            timeout: begin.timeout,
            request: begin.objective,
            offer: None,
            my_turn: !begin.requester,
            waits: 0,
            deadline: reading_after(now, u64::from(begin.timeout)),
            ending: None,
        }
    }

    /// The last offer of either end.
    pub(crate) fn last_offer(&self) -> &Objective
        ensures { result.now ≡ offer_in self.now }
    {
        match &self.offer {
            Some(objective) => objective,
            None => &self.request,
        }
    }

    /// Why this end may not do this now, if it may not.
    pub(crate) fn refusal(&self, act: Act) -> Option<SessionRefused>
        ensures { result ≡ refusal_in self.now act }
    {
        if self.ending.is_some() {
            return Some(SessionRefused::NotYourTurn);
        }
        match act {
            Act::Invalid => None,
            _ if !self.my_turn => Some(SessionRefused::NotYourTurn),
            Act::Step if self.last_offer().loops <= 1 => Some(SessionRefused::LoopsSpent),
            Act::Wait if self.waits >= 4 => Some(SessionRefused::WaitsSpent),
            _ => None,
        }
    }

    /// A message that comes. It is kept, or it changes nothing.
    pub(crate) fn receive(&mut self, now: u64, message: Message) -> Received
        ensures { (x : SessionState) → Keeps self.old x
            → (result ≡ receive x.view message) × Keeps self.new (with_transcript x (after_received x.view now message result)) }
    {
        if self.ending.is_some() {
            return Received::Ignored;
        }
        match message {
            Message::Noop => Received::Ignored,
            Message::Invalid {
                session: _,
                detail: _detail,
            } => {
                self.finish(now, Ending::Invalid(By::Theirs));
                Received::Kept
            }
            Message::Wait { session, millis } => {
                if !self.awaits(session) || self.waits >= 4 {
                    return Received::Bad;
                }
                self.allow(now, millis);
                Received::Kept
            }
            Message::Negotiate { session, objective } => {
                if !self.is_negotiation() || !self.awaits(session) || !self.is_step(&objective) {
                    return Received::Bad;
                }
                self.offered(now, objective, true);
                Received::Kept
            }
            Message::Synch { session, objective } => {
                if self.is_negotiation() || !self.awaits(session) || !self.is_same(&objective) {
                    return Received::Bad;
                }
                self.finish(now, Ending::Synchronized(objective));
                Received::Kept
            }
            Message::End { session, verdict } => {
                if !self.awaits(session) {
                    return Received::Bad;
                }
                self.receive_end(now, verdict)
            }
            other => refuse(other),
        }
    }

    /// An acceptance or a decline that comes.
    fn receive_end(&mut self, now: u64, verdict: Verdict) -> Received
        requires { is_none self.old.ending ≡ true }
        ensures { (x : SessionState) (n : ℕ) → Keeps self.old x → awaits_in self.old n ≡ true
            → (result ≡ receive x.view (End n verdict))
            × Keeps self.new (with_transcript x (after_received x.view now (End n verdict) result)) }
    {
        match verdict {
            Verdict::Decline(reason) => {
                self.finish(now, Ending::Declined(By::Theirs, reason));
                Received::Kept
            }
            Verdict::Accept => {
                if !self.is_negotiation() {
                    return Received::Bad;
                }
                self.finish(now, Ending::Agreed(By::Theirs));
                Received::Kept
            }
        }
    }

    /// A step of this end.
    pub(crate) fn step(&mut self, now: u64, value: Value) -> Result<Message, OutOfMemory>
        requires { refusal_in self.old Act.Step ≡ None }
        ensures sent { IfOk result (λ message. (x : SessionState) → Keeps self.old x
            → (message ≡ message_of x.view (SayStep value))
            × Keeps self.new (with_transcript x (having_said x.view now (SayStep value)))) }
        ensures err { OnErr result (self.new ≡ self.old) }
    {
        let objective = self.next_offer(value)?;
        let offer = objective.copy()?;
        self.offered(now, offer, false);
        Ok(Message::Negotiate {
            session: self.session,
            objective,
        })
    }

    /// The message of a step of this end.
    pub(crate) fn step_message(&self, value: &Value) -> Result<Message, OutOfMemory>
        requires { refusal_in self.now Act.Step ≡ None }
        ensures { IfOk result (λ message. (x : SessionState) → Keeps self.now x → message ≡ message_of x.view (SayStep value.now)) }
    {
        let value = value.copy()?;
        let objective = self.next_offer(value)?;
        Ok(Message::Negotiate {
            session: self.session,
            objective,
        })
    }

    /// A wait of this end.
    pub(crate) fn wait(&mut self, now: u64, millis: u32) -> Message
        requires { refusal_in self.old Act.Wait ≡ None }
        ensures { (x : SessionState) → Keeps self.old x
            → (result ≡ message_of x.view (SayWait millis))
            × Keeps self.new (with_transcript x (having_said x.view now (SayWait millis))) }
    {
        self.allow(now, millis);
        Message::Wait {
            session: self.session,
            millis,
        }
    }

    /// An acceptance or a decline of this end, which ends the session so. One that no agent has taken need not keep it.
    pub(crate) fn end(&mut self, now: u64, verdict: Verdict, ending: Ending) -> Message
        requires { refusal_in self.old Act.End ≡ None }
        ensures message { (x : SessionState) → Keeps self.old x → result ≡ message_of x.view (SayEnd verdict) }
        ensures kept { (x : SessionState) → ending ≡ ending_of verdict → Keeps self.old x
            → Keeps self.new (with_transcript x (having_said x.view now (SayEnd verdict))) }
        ensures over { leaves_in self.new ≡ (self.old.owner == 0) }
    {
        self.finish(now, ending);
        Message::End {
            session: self.session,
            verdict,
        }
    }

    /// This end gives up.
    pub(crate) fn invalid(&mut self, now: u64, detail: Option<Value>) -> Message
        requires { refusal_in self.old Act.Invalid ≡ None }
        ensures { (x : SessionState) → Keeps self.old x
            → (result ≡ message_of x.view (SayInvalid detail))
            × Keeps self.new (with_transcript x (having_said x.view now (SayInvalid detail))) }
    {
        self.finish(now, Ending::Invalid(By::Mine));
        Message::Invalid {
            session: self.session,
            detail,
        }
    }

    /// A session without an outcome ends from outside.
    pub(crate) fn mark(&mut self, cause: Cause)
        requires { is_none self.old.ending ≡ true }
        ensures { (x : SessionState) → Keeps self.old x → Keeps self.new (with_transcript x (with_mark x.view (mark_of cause))) }
    {
        let ending = match cause {
            Cause::Expired(now) => Ending::TimedOut {
                deadline: self.deadline,
                now,
            },
            Cause::Closed => Ending::Broken,
            Cause::Starved => Ending::OutOfMemory,
            Cause::Faulty => Ending::Invalid(By::Mine),
        };
        self.ending = Some(ending);
    }

    /// What came of a session that has ended.
    pub(crate) fn outcome(self) -> Option<Outcome>
        ensures { result ≡ ended_with (offer_in self) self.ending }
    {
        let request = self.request;
        let offer = self.offer;
        let ending = self.ending?;
        let objective = match offer {
            Some(objective) => objective,
            None => request,
        };
        Some(ending.with(objective))
    }

    /// Whether no agent has taken it, and it has an outcome.
    pub(crate) fn is_leaving(&self) -> bool
        ensures { result ≡ leaves_in self.now }
    {
        self.owner == 0 && self.ending.is_some()
    }

    /// The objective of a step with this value.
    fn next_offer(&self, value: Value) -> Result<Objective, OutOfMemory>
        requires { refusal_in self.now Act.Step ≡ None }
        ensures { IfOk result (λ objective. objective ≡ record {
          name = self.now.request.name;
          flags = self.now.request.flags;
          loops = (offer_in self.now).loops - 1;
          value = Some value;
        }) }
    {
        Ok(Objective {
            name: self.request.name.copy()?,
            flags: self.request.flags,
            loops: self.last_offer().loops - 1,
            value: Some(value),
        })
    }

    /// Whether this is a negotiation.
    fn is_negotiation(&self) -> bool
        ensures { result ≡ is_negotiation self.now.kind }
    {
        matches!(self.kind, Kind::Negotiation)
    }

    /// Whether the peer may speak now, under this session number.
    fn awaits(&self, session: u32) -> bool
        ensures { result ≡ awaits_in self.now session }
    {
        session == self.session && !self.my_turn
    }

    /// Whether this objective has the request's name.
    fn is_same(&self, objective: &Objective) -> bool
        ensures { result ≡ bytes_eq objective.now.name self.now.request.name }
    {
        objective.name.bytes() == self.request.name.bytes()
    }

    /// Whether this objective is a step's that is kept.
    fn is_step(&self, objective: &Objective) -> bool
        ensures { result ≡ steps_in self.now objective.now }
    {
        self.is_same(objective)
            && objective.flags.bits() == self.request.flags.bits()
            && 0 < objective.loops
            && objective.loops < self.last_offer().loops
    }

    /// A step passes the turn.
    fn offered(&mut self, now: u64, objective: Objective, my_turn: bool)
        ensures { self.new ≡ record self.old { offer = Some objective; my_turn = my_turn; waits = 0; deadline = reading_after now self.old.timeout } }
    {
        self.offer = Some(objective);
        self.my_turn = my_turn;
        self.waits = 0;
        self.deadline = reading_after(now, u64::from(self.timeout));
    }

    /// A wait moves the deadline.
    fn allow(&mut self, now: u64, millis: u32)
        requires { self.old.waits < 4 }
        ensures { self.new ≡ record self.old { waits = self.old.waits + 1; deadline = max self.old.deadline (reading_after now millis) } }
    {
        self.waits += 1;
        self.deadline = self.deadline.max(reading_after(now, u64::from(millis)));
    }

    /// The session ends by a message.
    fn finish(&mut self, now: u64, ending: Ending)
        ensures { self.new ≡ record self.old { ending = Some ending; deadline = reading_after now self.old.timeout } }
    {
        self.ending = Some(ending);
        self.deadline = reading_after(now, u64::from(self.timeout));
    }
}

/// A message that may not come.
fn refuse(_message: Message) -> Received
    ensures { result ≡ Bad }
{
    Received::Bad
}
