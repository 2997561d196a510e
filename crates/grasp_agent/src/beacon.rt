//! An agent that offers and floods a value.

ghost use Rattle.std.specs.Prelude.{◌≡◌, IfOk};
ghost use Rattle.grasp_agent.specs.Announcing.{first_beacon, beacon_call, after_beacon, flooding_again};
ghost use Rattle.grasp_types.specs.declared.call.Call.TheVariants as call;

use crate::agent::Agent;
use crate::names::numbered;
use crate::replies::{is_done, number};
use grasp_cbor::{Chars, OutOfMemory};
use grasp_types::{Call, Flags, Plain, Reply, Value};
use std::alloc::Global;
use std::marker::Model;

/// The call of a beacon that is next.
#[derive(Clone, Copy, Debug, PartialEq, Eq)]
pub(crate) enum Step {
    /// It registers itself.
    Registering,
    /// It registers its objective.
    Declaring,
    /// It offers its value.
    Offering,
    /// It floods it.
    Flooding,
    /// It offers it again.
    Repeating,
}

/// An agent that offers a value for synchronization and floods it once, and again where it is told to (RFC 8990, section 2.5.6).
#[derive(Drop)]
pub struct Beacon {
    alloc: Global,
    number: u8,
    name: Chars,
    value: Value,
    ttl: u32,
    loops: u8,
    asa: u32,
    step: Step,
}

impl Model for Beacon {
    ghost use Rattle.std.specs.Coded.{codes};
    ghost use Rattle.grasp_cbor.specs.DataItemCode.{coded_item};
    ghost use Rattle.grasp_agent.specs.Announcing.{BeaconState};

    ghost Value = { BeaconState };

    ghost coded = { Prim.hlevel (codes, coded_item) };

    ghost view = { λ a. record { number = a.number; name = a.name; value = a.value; ttl = a.ttl; loops = a.loops; asa = a.asa; step = a.step } };
}

impl Beacon {
    /// A beacon of this number that has made no call: it will offer this value of this objective, and flood it with this
    /// lifetime in milliseconds, where 0 never ends, and this loop count.
    pub fn open(alloc: Global, number: u8, name: Chars, value: Value, ttl: u32, loops: u8) -> Beacon
        ensures { result ≡ first_beacon number name value ttl loops }
    {
        Beacon {
            alloc,
            number,
            name,
            value,
            ttl,
            loops,
            asa: 0,
            step: Step::Registering,
        }
    }

    /// Its next call floods the value again, where it has flooded it before; else it stays as it is.
    #[tactic(auto, unfolding(crate::specs::Announcing::flooding_again))]
    pub fn again(&mut self)
        ensures { self.new ≡ flooding_again self.old }
    {
        if self.step == Step::Repeating {
            self.step = Step::Flooding;
        }
    }

    /// The call that offers the value.
    fn offer(&self) -> Result<Call, OutOfMemory>
        ensures { IfOk result (λ made. made ≡ call.ListenSynchronize self.now.name self.now.value) }
    {
        Ok(Call::ListenSynchronize {
            name: self.name.copy()?,
            value: self.value.copy()?,
        })
    }
}

impl Agent for Beacon {
    ghost next_call = { beacon_call };

    ghost after_reply = { after_beacon };

    ghost number = { λ beacon. beacon.asa };

    #[tactic(auto, unfolding(crate::specs::Announcing::beacon_call, crate::specs::Announcing::beacon_name))]
    fn next(&self) -> Result<Call, OutOfMemory>
        ensures { IfOk result (λ call. call ≡ beacon_call self.now) }
    {
        match self.step {
            Step::Registering => Ok(Call::RegisterAsa {
                name: numbered(self.alloc, "beacon ", self.number)?,
            }),
            Step::Declaring => Ok(Call::RegisterObjective {
                name: self.name.copy()?,
                flags: Flags::DISC_SYNCH,
            }),
            Step::Offering | Step::Repeating => self.offer(),
            Step::Flooding => Ok(Call::Flood {
                name: self.name.copy()?,
                value: self.value.copy()?,
                ttl: self.ttl,
                loops: self.loops,
            }),
        }
    }

    #[tactic(auto, unfolding(crate::specs::Announcing::after_beacon))]
    fn take(&mut self, reply: &Reply)
        ensures { self.new ≡ after_beacon self.old reply.now }
    {
        match self.step {
            Step::Registering => {
                if let Some(number) = number(reply) {
                    self.asa = number;
                    self.step = Step::Declaring;
                }
            }
            Step::Declaring if is_done(reply) => self.step = Step::Offering,
            Step::Offering if is_done(reply) => self.step = Step::Flooding,
            Step::Flooding if is_done(reply) => self.step = Step::Repeating,
            _ => (),
        }
    }

    fn asa(&self) -> u32
        ensures { result ≡ self.now.asa }
    {
        self.asa
    }
}
