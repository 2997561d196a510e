//! The seat of a visitor.

ghost use Rattle.std.specs.Prelude.{◌≡◌, ◌==◌, true, not, filter, find, option_copied, [], OnOk};
ghost use Rattle.grasp_agent.specs.Replies.{is_again};
ghost use Rattle.grasp_crew.specs.Seats.{new_seat, placed, placed_call, is_registering, is_deregistering, gate_of, seat_input, with_handle, without_number, polled_number, seat_ended, seat_answered, seat_replied, awaiting, without_await, leaving, is_left, after_goodbye, stays, is_seat_of};

use grasp_cbor::{Octets, OutOfMemory};
use grasp_types::{ApiAnswer, ApiRefused, Call, Handle, Input, Progress, Reply};
use std::alloc::Global;
use std::marker::Model;

/// The sessions that a seat knows at most: as many as a node has.
const MOST_SESSIONS: usize = 64;

/// A call that is made again until it is heard.
#[derive(Drop)]
pub struct Awaiting {
    /// The line that asked for it.
    pub line: Octets,
    /// The call.
    pub call: Call,
    /// The reading at which it ends, in milliseconds.
    pub until: u64,
    /// Its last reply.
    pub last: Reply,
}

/// Whether a seat can make a call.
#[derive(Clone, Copy, Debug, PartialEq, Eq)]
pub enum Gate {
    /// It can.
    Passes,
    /// It has no agent.
    Seatless,
    /// It has an agent, and the call would register another.
    Seated,
}

/// What is to be known of a call when its reply comes.
#[derive(Clone, Copy)]
pub struct Noted {
    /// Whether it deregisters the agent.
    pub leaves: bool,
    /// The number of the session that it polls.
    pub polled: Option<u64>,
}

/// The seat of a visitor: the agent that it registered, its sessions, and what it waits for.
#[derive(Drop)]
pub struct Seat {
    visitor: u64,
    guest: bool,
    asa: u32,
    handles: Vec<Handle>,
    hears: bool,
    awaits: Option<Awaiting>,
    leaving: bool,
}

impl Model for Seat {
    ghost use Rattle.std.specs.Coded.{codes};
    ghost use Rattle.grasp_crew.specs.Seats.{SeatState};
    ghost use Rattle.grasp_crew.specs.contracts.seat.Awaiting as awaiting;

    ghost Value = { SeatState };

    ghost coded = { Prim.hlevel (codes, awaiting.the_row.coded) };

    ghost view = { λ s. record { visitor = s.visitor; guest = s.guest; asa = s.asa; handles = s.handles.items; hears = s.hears; awaits = s.awaits; leaving = s.leaving } };
}

impl Seat {
    /// The seat of a visitor that has just come.
    pub fn new(alloc: Global, visitor: u64, guest: bool) -> Seat
        ensures { result ≡ new_seat visitor guest }
    {
        Seat {
            visitor,
            guest,
            asa: 0,
            handles: Vec::new(alloc),
            hears: false,
            awaits: None,
            leaving: false,
        }
    }

    /// Whether the seat can make this call.
    pub fn gate(&self, call: &Call) -> Gate
        ensures { result ≡ gate_of self.now call.now }
    {
        match (self.asa == 0, is_registering(call)) {
            (true, true) => Gate::Passes,
            (true, false) => Gate::Seatless,
            (false, true) => Gate::Seated,
            (false, false) => Gate::Passes,
        }
    }

    /// The call under its agent's number, with its session as the node knows it.
    pub fn input(&self, call: Call) -> Input
        ensures { result ≡ seat_input self.now call }
    {
        Input::Api {
            asa: self.asa,
            call: placed_call(&self.handles, call),
        }
    }

    /// Takes the reply to a call of which this was noted. After an `Err` nothing is claimed of the seat.
    pub fn take(&mut self, noted: Noted, reply: &Reply) -> Result<(), OutOfMemory>
        ensures { OnOk result (self.new ≡ seat_replied self.old noted.leaves noted.polled reply.now) }
    {
        match reply {
            Reply::Api(answer) => self.take_answer(noted, answer),
            _ => Ok(()),
        }
    }

    /// Takes the answer to such a call.
    fn take_answer(&mut self, noted: Noted, answer: &ApiAnswer) -> Result<(), OutOfMemory>
        ensures { OnOk result (self.new ≡ seat_answered self.old noted.leaves noted.polled answer.now) }
    {
        match answer {
            ApiAnswer::Asa(number) => {
                self.asa = *number;
                Ok(())
            }
            ApiAnswer::Started(handle) => keep_handle(&mut self.handles, *handle),
            ApiAnswer::Incoming { handle, .. } => keep_handle(&mut self.handles, *handle),
            ApiAnswer::Polled(Progress::Ended(_)) => {
                self.forget(noted.polled);
                Ok(())
            }
            ApiAnswer::Done if noted.leaves => {
                self.leave_agent();
                Ok(())
            }
            _ => Ok(()),
        }
    }

    /// Forgets the session of this number.
    fn forget(&mut self, polled: Option<u64>)
        ensures { self.new ≡ record self.old { handles = without_number self.old.handles polled } }
    {
        if let Some(number) = polled {
            drop_number(&mut self.handles, number);
        }
    }

    /// The number of its visitor.
    pub fn visitor(&self) -> u64
        ensures { result ≡ self.now.visitor }
    {
        self.visitor
    }

    /// Whether its visitor came in by the door for guests.
    pub fn is_guest(&self) -> bool
        ensures { result ≡ self.now.guest }
    {
        self.guest
    }

    /// Whether it hears of events.
    pub fn hears(&self) -> bool
        ensures { result ≡ self.now.hears }
    {
        self.hears
    }

    /// It hears of events from now on.
    pub fn hear(&mut self)
        ensures { self.new ≡ record self.old { hears = true } }
    {
        self.hears = true;
    }

    /// Whether it sits in this visitor's place.
    pub fn is_of(&self, visitor: u64) -> bool
        ensures { result ≡ is_seat_of visitor self.now }
    {
        self.visitor == visitor && !self.leaving
    }

    /// What it waits for.
    pub fn awaits(&self) -> &Option<Awaiting>
        ensures { result.now ≡ self.now.awaits }
    {
        &self.awaits
    }

    /// It waits from this reply on.
    pub fn wait_for(&mut self, line: Octets, call: Call, until: u64, last: Reply)
        ensures { self.new ≡ awaiting self.old line call until last }
    {
        self.awaits = Some(Awaiting {
            line,
            call,
            until,
            last,
        });
    }

    /// It waits no longer. The answer is what it waited for.
    pub fn end_wait(&mut self) -> Option<Awaiting>
        ensures waited { result ≡ self.old.awaits }
        ensures after { self.new ≡ without_await self.old }
    {
        self.awaits.take()
    }

    /// Its visitor left.
    pub fn leave(&mut self)
        ensures { self.new ≡ leaving self.old }
    {
        self.awaits = None;
        self.hears = false;
        self.leaving = true;
    }

    /// Whether its visitor left.
    pub fn has_left(&self) -> bool
        ensures { result ≡ self.now.leaving }
    {
        self.leaving
    }

    /// Whether its visitor left and its agent is still registered.
    pub fn is_left(&self) -> bool
        ensures { result ≡ is_left self.now }
    {
        self.leaving && self.asa != 0
    }

    /// Takes the reply to the call that deregisters the agent of a visitor that left.
    pub fn take_goodbye(&mut self, reply: &Reply)
        ensures { self.new ≡ after_goodbye self.old reply.now }
    {
        if !is_again(reply) {
            self.leave_agent();
        }
    }

    /// Whether the seat is kept: its visitor hasn't left, or its agent is still registered.
    pub fn stays(&self) -> bool
        ensures { result ≡ stays self.now }
    {
        !self.leaving || self.asa != 0
    }

    /// Its agent is gone.
    fn leave_agent(&mut self)
        ensures { self.new ≡ record self.old { asa = 0; handles = [] } }
    {
        self.asa = 0;
        self.handles.clear();
    }
}

/// Whether the node had no room or no memory for a call, so that it is made again.
fn is_again(reply: &Reply) -> bool
    ensures { result ≡ is_again reply.now }
{
    matches!(
        reply,
        Reply::Refused(ApiRefused::OutboxFull | ApiRefused::OutOfMemory) | Reply::OutOfMemory
    )
}

/// What is to be known of a call when its reply comes.
pub fn note_of(call: &Call) -> Noted
    ensures leaves { result.leaves ≡ is_deregistering call.now }
    ensures polled { result.polled ≡ polled_number call.now }
{
    Noted {
        leaves: matches!(call, Call::DeregisterAsa),
        polled: polled_number(call),
    }
}

/// The number of the session that a call polls.
fn polled_number(call: &Call) -> Option<u64>
    ensures { result ≡ polled_number call.now }
{
    match call {
        Call::Poll { handle } => Some(handle.number),
        _ => None,
    }
}

/// Whether a call registers an agent.
fn is_registering(call: &Call) -> bool
    ensures { result ≡ is_registering call.now }
{
    matches!(call, Call::RegisterAsa { .. })
}

/// The session of this handle's number, as the seat knows it.
fn placed(handles: &[Handle], handle: Handle) -> Handle
    ensures { result ≡ placed handles.now handle }
{
    match held(handles, handle.number) {
        Some(held) => *held,
        None => handle,
    }
}

/// The session of this number.
fn held(handles: &[Handle], number: u64) -> Option<&Handle>
    ensures { option_copied result ≡ find (λ h. h.number == number) handles.now }
{
    handles.iter().find(|h| h.number == number)
}

/// The call, with its session as the node knows it.
fn placed_call(handles: &[Handle], call: Call) -> Call
    ensures { result ≡ placed_call handles.now call }
{
    match call {
        Call::NegotiateStep { handle, value } => Call::NegotiateStep {
            handle: placed(handles, handle),
            value,
        },
        Call::NegotiateWait { handle, millis } => Call::NegotiateWait {
            handle: placed(handles, handle),
            millis,
        },
        Call::EndNegotiate { handle, verdict } => Call::EndNegotiate {
            handle: placed(handles, handle),
            verdict,
        },
        Call::SendInvalid { handle, detail } => Call::SendInvalid {
            handle: placed(handles, handle),
            detail,
        },
        Call::Poll { handle } => Call::Poll {
            handle: placed(handles, handle),
        },
        call => call,
    }
}

/// Drops the session of this number.
fn drop_number(handles: &mut Vec<Handle>, number: u64)
    ensures { handles.new.items ≡ filter (λ h. not (h.number == number)) handles.old.items }
{
    handles.retain(|h| h.number != number);
}

/// Keeps one session more, the 64 newest at most. After an `Err` nothing is claimed of them.
fn keep_handle(handles: &mut Vec<Handle>, handle: Handle) -> Result<(), OutOfMemory>
    ensures { OnOk result (handles.new.items ≡ with_handle handles.old.items handle) }
{
    if handles.len() >= MOST_SESSIONS {
        let _oldest = handles.remove(0);
    }
    handles.push(handle)?;
    Ok(())
}
