//! The agents of a node that serves.

ghost use Rattle.std.specs.Prelude.{◌≡◌, IfOk, OnOk, OnErr};
ghost use Rattle.grasp_crew.specs.Servants.{is_steward, opening_count, nudge_of, nudged, is_due, call_of, after_call, woken};

use crate::herald::Herald;
use crate::listener::Listener;
use crate::steward::Steward;
use grasp_cbor::OutOfMemory;
use grasp_types::{Input, Reply};

/// An agent of a node that serves.
#[derive(Drop)]
pub enum Servant {
    /// It manages prefixes.
    Steward(Steward),
    /// It announces a value.
    Herald(Herald),
    /// It reads what floods report.
    Listener(Listener),
}

impl Servant {
    /// Whether it manages prefixes.
    pub fn is_steward(&self) -> bool
        ensures { result ≡ is_steward self.now }
    {
        matches!(self, Servant::Steward(_))
    }

    /// How many calls open it: the agent of prefixes registers itself and its objective and listens, a beacon offers its
    /// value in place of that, and a reader registers itself.
    pub fn opening_count(&self) -> u32
        ensures { result ≡ opening_count self.now }
    {
        match self {
            Servant::Steward(_) => 3,
            Servant::Herald(_) => 3,
            Servant::Listener(_) => 1,
        }
    }

    /// Tells the agent what is due at this reading, in milliseconds. After an `Err` it is as before.
    pub fn tell(&mut self, now: u64) -> Result<(), OutOfMemory>
        ensures told { OnOk result (self.new ≡ nudged self.old (nudge_of now self.old)) }
        ensures stays { OnErr result (self.new ≡ self.old) }
    {
        match self {
            Servant::Steward(steward) => steward.tell(now),
            Servant::Herald(herald) => {
                herald.tell(now);
                Ok(())
            }
            Servant::Listener(_) => Ok(()),
        }
    }

    /// Whether a call of it is due.
    pub fn is_due(&self) -> bool
        ensures { result ≡ is_due self.now }
    {
        match self {
            Servant::Steward(steward) => steward.is_due(),
            Servant::Herald(herald) => herald.is_due(),
            Servant::Listener(listener) => listener.is_due(),
        }
    }

    /// Its next call.
    pub fn call(&self) -> Result<Input, OutOfMemory>
        ensures { IfOk result (λ i. i ≡ call_of self.now) }
    {
        match self {
            Servant::Steward(steward) => steward.call(),
            Servant::Herald(herald) => herald.call(),
            Servant::Listener(listener) => listener.call(),
        }
    }

    /// Takes the reply to that call, at this reading in milliseconds.
    pub fn take(&mut self, now: u64, reply: Reply)
        ensures { self.new ≡ after_call now self.old reply }
    {
        match self {
            Servant::Steward(steward) => steward.take(now, &reply),
            Servant::Herald(herald) => herald.take(now, &reply),
            Servant::Listener(listener) => listener.take(reply),
        }
    }

    /// Something came that may tell it something.
    pub fn wake(&mut self)
        ensures { self.new ≡ woken self.old }
    {
        match self {
            Servant::Steward(steward) => steward.wake(),
            Servant::Herald(herald) => herald.wake(),
            Servant::Listener(listener) => listener.wake(),
        }
    }

    /// The first reading at which something is due to be told to it, or the greatest one where nothing is: for how long to
    /// wait.
    pub fn next_reading(&self) -> u64 {
        match self {
            Servant::Steward(steward) => steward.next_reading(),
            Servant::Herald(herald) => herald.next_reading(),
            Servant::Listener(_) => u64::MAX,
        }
    }
}
