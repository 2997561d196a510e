//! A beacon as it serves.

ghost use Rattle.std.specs.Prelude.{◌≡◌, IfOk};
ghost use Rattle.grasp_crew.specs.Herald.{first_herald, herald_nudge, herald_told, herald_due, herald_call, herald_after, herald_woken, rested};

use crate::replies::is_moving;
use grasp_agent::{Agent, Beacon};
use grasp_cbor::{Chars, OutOfMemory};
use grasp_types::{Input, Reply, Value};
use std::alloc::Global;
use std::marker::Model;

/// The pause behind the first flood, in milliseconds.
const FIRST_PAUSE: u32 = 1000;

/// Its calls until it rests: it registers itself and its objective, offers its value, and floods it.
const CALLS: u8 = 4;

/// An agent that offers a value and floods it again and again, as long as it serves (RFC 8990, section 2.5.6.2).
#[derive(Drop)]
pub struct Herald {
    beacon: Beacon,
    left: u8,
    awake: bool,
    next: u64,
    pause: u32,
    every: u32,
}

impl Model for Herald {
    ghost use Rattle.std.specs.Coded.{codes};
    ghost use Rattle.grasp_cbor.specs.DataItemCode.{coded_item};
    ghost use Rattle.grasp_crew.specs.Herald.{HeraldState};

    ghost Value = { HeraldState };

    ghost coded = { Prim.hlevel (codes, coded_item) };

    ghost view = { λ h. record { beacon = h.beacon; left = h.left; awake = h.awake; next = h.next; pause = h.pause; every = h.every } };
}

impl Herald {
    /// A beacon of this number that has made no call: it will offer this value of this objective, and flood it with this
    /// lifetime in milliseconds, where 0 never ends, and this loop count, again and again. The pauses between floods are
    /// 1000 milliseconds at first and grow up to the longest one.
    pub fn open(
        alloc: Global,
        number: u8,
        name: Chars,
        value: Value,
        ttl: u32,
        loops: u8,
        every: u32,
    ) -> Herald
        ensures { result ≡ first_herald number name value ttl loops every }
    {
        Herald {
            beacon: Beacon::open(alloc, number, name, value, ttl, loops),
            left: CALLS,
            awake: true,
            next: 0,
            pause: FIRST_PAUSE,
            every,
        }
    }

    /// Tells a beacon that rests to flood again, once the reading has come.
    pub fn tell(&mut self, now: u64)
        ensures { self.new ≡ herald_told self.old (herald_nudge now self.old) }
    {
        if self.left == 0 && self.next <= now {
            self.beacon.again();
            self.left = 1;
            self.awake = true;
        }
    }

    /// Whether a call is due.
    pub fn is_due(&self) -> bool
        ensures { result ≡ herald_due self.now }
    {
        self.awake && self.left > 0
    }

    /// Its next call.
    pub fn call(&self) -> Result<Input, OutOfMemory>
        ensures { IfOk result (λ i. i ≡ herald_call self.now) }
    {
        Ok(Input::Api {
            asa: self.beacon.asa(),
            call: self.beacon.next()?,
        })
    }

    /// Takes the reply to that call, at this reading in milliseconds.
    #[tactic(auto, unfolding(crate::specs::Herald::herald_after))]
    pub fn take(&mut self, now: u64, reply: &Reply)
        ensures { self.new ≡ herald_after now self.old reply.now }
    {
        self.beacon.take(reply);
        self.awake = is_moving(reply);
        if self.awake {
            self.rest(now);
        }
    }

    /// One call less until it rests; once it does, its next flood comes behind a pause.
    fn rest(&mut self, now: u64)
        ensures { self.new ≡ rested now self.old }
    {
        if self.left == 1 {
            let twice = (u64::from(self.pause) * 2).min(u64::from(self.every));
            self.next = now.saturating_add(u64::from(self.pause));
            self.pause = twice as u32;
        }
        self.left = self.left.saturating_sub(1);
    }

    /// Something came, so that a call that wasn't done is made again.
    pub fn wake(&mut self)
        ensures { self.new ≡ herald_woken self.old }
    {
        self.awake = true;
    }

    /// The first reading at which it floods again, or the greatest one where it doesn't rest: for how long to wait.
    pub fn next_reading(&self) -> u64 {
        if self.left == 0 { self.next } else { u64::MAX }
    }
}
