//! The sessions of a node (RFC 8990, section 2.5).

ghost use Rattle.std.specs.Prelude.{◌≡◌, ℕ, ◌<◌, ◌==◌, true, false, not, Some, None, Ok, is_none, position, slice_index_or, slice_set, option_copied};
ghost use Rattle.std.specs.Prelude.{IfOk, IfErr, IfSome, OnErr, IsSome};
ghost use Rattle.grasp_session.specs.Transcript.{SayStep, SayWait, SayEnd, SayInvalid, Closed, Starved, Faulty};
ghost use Rattle.grasp_session.specs.Sessions.{Sessions, no_sessions, start_reply, after_start, check_reply, MayRefuse, say_reply, after_say};
ghost use Rattle.grasp_session.specs.Sessions.{MayStarve, receive_reply, after_receive, MayPoll, after_poll, after_mark, expire_reply, after_expire};
ghost use Rattle.grasp_session.specs.Sessions.{state_reply, stream_reply, session_reply, last_reply, is_full, live_count, is_used, untaken_reply};
ghost use Rattle.grasp_session.specs.Sessions.{untaken_above_reply, owner_reply, adopt_reply, after_adopt, after_remove};
ghost use Rattle.grasp_session.specs.Stands.{Stands, kept_at, kept_owned, check_answer, state_answer, oldest_in, older_in, fits_at, full_in, settled};
ghost use Rattle.grasp_session.specs.Stands.{IsLive, IsUntaken};
ghost use Rattle.grasp_session.specs.Keeps.{mark_of};

use crate::answer::{Act, Received, SessionRefused};
use crate::begin::Begin;
use crate::places::Places;
use crate::session::{Cause, Ending, Session};
use crate::wanted::Wanted;
use grasp_cbor::{Chars, OutOfMemory};
use grasp_types::{Handle, Kind, Message, Objective, Plain, Progress, Value, Verdict};
use std::alloc::Global;

/// The sessions of a node, of which at most 64 are live.
#[derive(Drop)]
pub struct Table {
    made: u64,
    places: Places,
}

impl Table {
    /// No sessions, with the memory for 64.
    pub fn new(alloc: Global) -> Result<Table, OutOfMemory>
        ensures { IfOk result (λ table. Stands table no_sessions) }
    {
        Ok(Table {
            made: 0,
            places: Places::new(alloc)?,
        })
    }

    /// Begins a session with its request, on a stream of which `state` tells no live session. A synchronization is
    /// a requester's; `taken` is false exactly where the owner is 0, and that is so for a listener's session alone.
    ///
    /// The handle has the least place that is empty and the next number. `SessionsFull` comes exactly where the table is
    /// full. No other refusal comes, and no memory is taken.
    pub fn start(&mut self, now: u64, begin: Begin) -> Result<Handle, SessionRefused>
        requires stream { state_answer self.old begin.stream ≡ None }
        requires kind { begin.kind ≡ Kind.Synchronization → begin.requester ≡ true }
        requires taken { begin.taken ≡ not (begin.owner == 0) }
        requires owner { begin.owner ≡ 0 → begin.requester ≡ false }
        ensures starts { (z : Sessions) → Stands self.old z → (result ≡ start_reply z) × Stands self.new (after_start z now begin result) }
    {
        if self.is_full() {
            return Err(SessionRefused::SessionsFull);
        }
        let Some(place) = self.empty_place() else {
            return Err(SessionRefused::SessionsFull);
        };
        let made = self.made;
        let number = made + 1;
        self.made = number;
        self.places.put(place, Session::begin(now, number, begin));
        Ok(Handle {
            place: place as u32,
            number,
        })
    }

    /// Whether this agent may do this now in its session, or the first refusal that fits, in this order: `NoSession`,
    /// `NotYourTurn`, and for a step `LoopsSpent`, for a wait `WaitsSpent`. It takes no memory.
    pub fn check(&self, owner: u32, handle: Handle, act: Act) -> Result<(), SessionRefused>
        ensures reply { (z : Sessions) → Stands self.now z → result ≡ check_reply z owner handle act }
        ensures refused { IfErr result (λ refused. MayRefuse act refused) }
        ensures answer { result ≡ check_answer self.now owner handle act }
    {
        match self.owned(owner, handle) {
            Some(session) => match session.refusal(act) {
                Some(refused) => Err(refused),
                None => Ok(()),
            },
            None => Err(SessionRefused::NoSession),
        }
    }

    /// The message that `step` would answer, where `check` answers `Ok` for a step: of the session's number, the last
    /// offer and this value, which is copied. From it a caller can tell whether the step may be sent, before it is said.
    pub fn step_message(
        &self,
        owner: u32,
        handle: Handle,
        value: &Value,
    ) -> Result<Message, OutOfMemory>
        requires { check_answer self.now owner handle Act.Step ≡ Ok tt }
        ensures { IfOk result (λ message. (z : Sessions) → Stands self.now z → message ≡ say_reply z handle (SayStep value.now)) }
    {
        match self.at(handle) {
            Some(session) => session.step_message(value),
            None => unreachable!(),
        }
    }

    /// Offers a value by a step, where `check` answers `Ok` for it. After an `Err` the table is as before.
    pub fn step(
        &mut self,
        now: u64,
        owner: u32,
        handle: Handle,
        value: Value,
    ) -> Result<Message, OutOfMemory>
        requires { check_answer self.old owner handle Act.Step ≡ Ok tt }
        ensures says { IfOk result (λ message. (z : Sessions) → Stands self.old z
            → (message ≡ say_reply z handle (SayStep value)) × Stands self.new (after_say z now handle (SayStep value))) }
        ensures err { OnErr result ((z : Sessions) → Stands self.old z → Stands self.new z) }
    {
        let mut session = self.take(handle);
        let said = session.step(now, value);
        self.settle(handle, session);
        said
    }

    /// Asks for more time by a wait, where `check` answers `Ok` for it. It takes no memory.
    pub fn wait(&mut self, now: u64, owner: u32, handle: Handle, millis: u32) -> Message
        requires { check_answer self.old owner handle Act.Wait ≡ Ok tt }
        ensures says { (z : Sessions) → Stands self.old z
            → (result ≡ say_reply z handle (SayWait millis)) × Stands self.new (after_say z now handle (SayWait millis)) }
    {
        let mut session = self.take(handle);
        let message = session.wait(now, millis);
        self.settle(handle, session);
        message
    }

    /// Accepts or declines, where `check` answers `Ok` for it. It wants memory only where an agent that has taken the
    /// session declines with a reason, which is copied. After an `Err` the table is as before.
    pub fn end(
        &mut self,
        now: u64,
        owner: u32,
        handle: Handle,
        verdict: Verdict,
    ) -> Result<Message, OutOfMemory>
        requires { check_answer self.old owner handle Act.End ≡ Ok tt }
        ensures says { IfOk result (λ message. (z : Sessions) → Stands self.old z
            → (message ≡ say_reply z handle (SayEnd verdict)) × Stands self.new (after_say z now handle (SayEnd verdict))) }
        ensures err { OnErr result ((z : Sessions) → Stands self.old z → Stands self.new z) }
        ensures wanted { OnErr result (MayStarve owner verdict) }
    {
        let ending = Ending::of(owner, &verdict)?;
        let mut session = self.take(handle);
        let message = session.end(now, verdict, ending);
        self.settle(handle, session);
        Ok(message)
    }

    /// Gives up, where `check` answers `Ok` for it. It takes no memory.
    pub fn invalid(
        &mut self,
        now: u64,
        owner: u32,
        handle: Handle,
        detail: Option<Value>,
    ) -> Message
        requires { check_answer self.old owner handle Act.Invalid ≡ Ok tt }
        ensures says { (z : Sessions) → Stands self.old z
            → (result ≡ say_reply z handle (SayInvalid detail)) × Stands self.new (after_say z now handle (SayInvalid detail)) }
    {
        let mut session = self.take(handle);
        let message = session.invalid(now, detail);
        self.settle(handle, session);
        message
    }

    /// A message that comes on a stream. Where it is ignored or bad the table is as before. It takes no memory.
    pub fn receive(&mut self, now: u64, stream: u64, message: Message) -> Received
        ensures receives { (z : Sessions) → Stands self.old z
            → (result ≡ receive_reply z stream message) × Stands self.new (after_receive z now stream message result) }
    {
        let Some(handle) = self.oldest(Wanted::OnStream(stream)) else {
            return Received::Ignored;
        };
        let mut session = self.take(handle);
        let received = session.receive(now, message);
        match received {
            Received::Kept => self.settle(handle, session),
            _ => self.put_back(handle, session),
        }
        received
    }

    /// How far a session is. One whose outcome is told is no longer live.
    ///
    /// `NoSession` comes exactly where no live session of this owner has the handle, and `OutOfMemory` only where an
    /// offer was to be copied. After an `Err` the table is as before.
    pub fn poll(&mut self, owner: u32, handle: Handle) -> Result<Progress, SessionRefused>
        ensures polls { (z : Sessions) → Stands self.old z → MayPoll z owner handle result × Stands self.new (after_poll z handle result) }
    {
        let Some(session) = self.owned(owner, handle) else {
            return Err(SessionRefused::NoSession);
        };
        if session.ending.is_none() {
            if !session.my_turn {
                return Ok(Progress::NotYet);
            }
            return match session.last_offer().copy() {
                Ok(objective) => Ok(Progress::Turn(objective)),
                Err(_) => Err(SessionRefused::OutOfMemory),
            };
        }
        match self.take(handle).outcome() {
            Some(outcome) => Ok(Progress::Ended(outcome)),
            None => unreachable!(),
        }
    }

    /// Of the sessions that have no outcome and whose deadline this reading has reached, the one of the least number
    /// times out, and its stream is the answer. `None` comes exactly where there is no such session. It takes no memory.
    pub fn expire_one(&mut self, now: u64) -> Option<u64>
        ensures expires { (z : Sessions) → Stands self.old z → (result ≡ expire_reply z now) × Stands self.new (after_expire z now) }
    {
        if now < self.places.earliest() {
            return None;
        }
        let Some(handle) = self.oldest(Wanted::Due(now)) else {
            self.places.look_again();
            return None;
        };
        let mut session = self.take(handle);
        let stream = session.stream;
        session.mark(Cause::Expired(now));
        self.settle(handle, session);
        Some(stream)
    }

    /// The stream was closed: its session, where it has no outcome, is broken. It takes no memory.
    pub fn closed(&mut self, stream: u64)
        ensures marks { (z : Sessions) → Stands self.old z → Stands self.new (after_mark z stream Closed) }
    {
        self.mark(stream, Cause::Closed);
    }

    /// There was no memory for what came on the stream: its session, where it has no outcome, ends by that.
    /// It takes no memory.
    pub fn starved(&mut self, stream: u64)
        ensures marks { (z : Sessions) → Stands self.old z → Stands self.new (after_mark z stream Starved) }
    {
        self.mark(stream, Cause::Starved);
    }

    /// A bad message came on the stream: its session, where it has no outcome, is invalid by this end.
    /// It takes no memory.
    pub fn bad(&mut self, stream: u64)
        ensures marks { (z : Sessions) → Stands self.old z → Stands self.new (after_mark z stream Faulty) }
    {
        self.mark(stream, Cause::Faulty);
    }

    /// The session number of the live session on a stream, and whether it has an outcome.
    pub fn state(&self, stream: u64) -> Option<(u32, bool)>
        ensures reply { (z : Sessions) → Stands self.now z → result ≡ state_reply z stream }
        ensures answer { result ≡ state_answer self.now stream }
    {
        let handle = self.oldest(Wanted::OnStream(stream))?;
        let session = self.at(handle)?;
        Some((session.session, session.ending.is_some()))
    }

    /// The stream of a live session.
    pub fn stream(&self, handle: Handle) -> Option<u64>
        ensures reply { (z : Sessions) → Stands self.now z → result ≡ stream_reply z handle }
        ensures live { IfSome result (λ _. IsLive self.now handle) }
    {
        let session = self.at(handle)?;
        Some(session.stream)
    }

    /// The session number of a live session without an outcome.
    pub fn session(&self, handle: Handle) -> Option<u32>
        ensures reply { (z : Sessions) → Stands self.now z → result ≡ session_reply z handle }
        ensures live { IfSome result (λ _. IsLive self.now handle) }
    {
        let session = self.at(handle)?;
        if session.ending.is_some() {
            return None;
        }
        Some(session.session)
    }

    /// The last offer of either end of a live session without an outcome.
    pub fn last(&self, handle: Handle) -> Option<&Objective>
        ensures { (z : Sessions) → Stands self.now z → option_copied result ≡ last_reply z handle }
    {
        let session = self.at(handle)?;
        if session.ending.is_some() {
            return None;
        }
        Some(session.last_offer())
    }

    /// Whether 64 sessions are live, or no number is left for one more.
    pub fn full(&self) -> bool
        ensures { (z : Sessions) → Stands self.now z → result ≡ is_full z }
    {
        self.is_full()
    }

    /// How many sessions are live.
    pub fn live(&self) -> u64
        ensures { (z : Sessions) → Stands self.now z → result ≡ live_count z }
    {
        self.places.count() as u64
    }

    /// Whether a live session that this end requested has this session number.
    pub fn uses(&self, session: u32) -> bool
        ensures { (z : Sessions) → Stands self.now z → result ≡ is_used z session }
    {
        self.oldest(Wanted::Requested(session)).is_some()
    }

    /// The session of the least number that no agent has taken and whose objective has this name.
    pub fn untaken(&self, name: &Chars) -> Option<Handle>
        ensures reply { (z : Sessions) → Stands self.now z → result ≡ untaken_reply z name.now }
        ensures untaken { IfSome result (λ handle. IsUntaken self.now handle) }
    {
        self.oldest(Wanted::Untaken(name))
    }

    /// The same, of the sessions whose number is above this one: so they can be gone over, each once.
    pub fn untaken_above(&self, name: &Chars, number: u64) -> Option<Handle>
        ensures reply { (z : Sessions) → Stands self.now z → result ≡ untaken_above_reply z name.now number }
        ensures untaken { IfSome result (λ handle. IsUntaken self.now handle) }
    {
        self.oldest(Wanted::UntakenAbove(name, number))
    }

    /// The session of the least number of this owner.
    pub fn of_owner(&self, owner: u32) -> Option<Handle>
        ensures reply { (z : Sessions) → Stands self.now z → result ≡ owner_reply z owner }
        ensures live { IfSome result (λ handle. IsLive self.now handle) }
    {
        self.oldest(Wanted::OwnedBy(owner))
    }

    /// Gives an untaken session, as `untaken` finds it, to an agent, and answers the request's objective. After an `Err`
    /// the table is as before.
    pub fn adopt(&mut self, owner: u32, handle: Handle) -> Result<Objective, OutOfMemory>
        requires untaken { IsUntaken self.old handle }
        requires owner { 0 < owner }
        ensures adopts { IfOk result
            (λ objective. (z : Sessions) → Stands self.old z
            → (Some objective ≡ adopt_reply z handle) × Stands self.new (after_adopt z owner handle)) }
        ensures err { OnErr result ((z : Sessions) → Stands self.old z → Stands self.new z) }
    {
        let mut session = self.take(handle);
        match session.request.copy() {
            Ok(objective) => {
                session.owner = owner;
                self.put_back(handle, session);
                Ok(objective)
            }
            Err(error) => {
                self.put_back(handle, session);
                Err(error)
            }
        }
    }

    /// Removes a live session: one for which `stream` answers, or that a look-up finds.
    pub fn remove(&mut self, handle: Handle)
        requires { IsLive self.old handle }
        ensures removes { (z : Sessions) → Stands self.old z → Stands self.new (after_remove z handle) }
    {
        let _session = self.take(handle);
    }

    /// Whether 64 sessions are live, or no number is left for one more.
    fn is_full(&self) -> bool
        ensures { result ≡ full_in self.now }
    {
        self.places.count() >= self.places.len() || self.made == u64::MAX
    }

    /// The live session with this handle.
    fn at(&self, handle: Handle) -> Option<&Session>
        ensures { option_copied result ≡ kept_at self.now.places handle }
    {
        if handle.place >= 64 {
            return None;
        }
        match self.places.get(handle.place as usize) {
            Some(session) if session.number == handle.number => Some(session),
            _ => None,
        }
    }

    /// The live session of this owner with this handle.
    fn owned(&self, owner: u32, handle: Handle) -> Option<&Session>
        ensures { option_copied result ≡ kept_owned self.now.places owner handle }
    {
        match self.at(handle) {
            Some(session) if session.owner == owner => Some(session),
            _ => None,
        }
    }

    /// The handle of the session with the least number that is wanted.
    fn oldest(&self, wanted: Wanted<'_>) -> Option<Handle>
        ensures oldest { result ≡ oldest_in wanted.entry self.now.places }
        ensures wanted { IfSome result (λ handle. fits_at wanted.entry (kept_at self.now.places handle) ≡ true) }
        ensures live { IfSome result (λ handle. IsLive self.now handle) }
    {
        let mut place = self.places.len();
        let mut best: Option<Handle> = None;
        while place > 0 {
            place -= 1;
            if let Some(session) = self.places.get(place) {
                best = older(&wanted, place, session, best);
            }
        }
        best
    }

    /// The least place without a session.
    fn empty_place(&self) -> Option<usize>
        ensures least { result ≡ position is_none self.now.places }
        ensures place { IfSome result (λ place. place < 64) }
        ensures empty { IfSome result (λ place. slice_index_or self.now.places place None ≡ None) }
    {
        for place in 0..self.places.len() {
            if self.places.get(place).is_none() {
                return Some(place);
            }
        }
        None
    }

    /// Takes out the session with this handle.
    fn take(&mut self, handle: Handle) -> Session
        requires { IsLive self.old handle }
        ensures session { kept_at self.old.places handle ≡ Some result }
        ensures rest { self.new ≡ record self.old { places = slice_set self.old.places handle.place None } }
        ensures place { handle.place < 64 }
    {
        match self.places.take(handle.place as usize) {
            Some(session) => session,
            None => unreachable!(),
        }
    }

    /// Puts a session back at its place.
    fn put_back(&mut self, handle: Handle, session: Session)
        requires place { handle.place < 64 }
        requires empty { slice_index_or self.old.places handle.place None ≡ None }
        ensures { self.new ≡ record self.old { places = slice_set self.old.places handle.place (Some session) } }
    {
        self.places.put(handle.place as usize, session);
    }

    /// Puts a session back at its place, unless it leaves.
    fn settle(&mut self, handle: Handle, session: Session)
        requires place { handle.place < 64 }
        requires empty { slice_index_or self.old.places handle.place None ≡ None }
        ensures { self.new ≡ record self.old { places = settled self.old.places handle.place session } }
    {
        if !session.is_leaving() {
            self.put_back(handle, session);
        }
    }

    /// Ends the session of a stream from outside, where it has no outcome.
    fn mark(&mut self, stream: u64, cause: Cause)
        ensures { (z : Sessions) → Stands self.old z → Stands self.new (after_mark z stream (mark_of cause)) }
    {
        let Some(handle) = self.oldest(Wanted::OnStream(stream)) else {
            return;
        };
        let mut session = self.take(handle);
        if session.ending.is_some() {
            return self.put_back(handle, session);
        }
        session.mark(cause);
        self.settle(handle, session);
    }
}

/// Of the session at this place, if it is wanted, and an older one, the handle with the least number.
fn older(
    wanted: &Wanted<'_>,
    place: usize,
    session: &Session,
    best: Option<Handle>,
) -> Option<Handle>
    requires { place < 64 }
    ensures { result ≡ older_in wanted.now place session.now best }
{
    if !wanted.fits(session) {
        return best;
    }
    if let Some(handle) = best {
        if handle.number < session.number {
            return best;
        }
    }
    Some(Handle {
        place: place as u32,
        number: session.number,
    })
}
