//! A reader as it serves.

ghost use Rattle.std.specs.Prelude.{◌≡◌, IfOk};
ghost use Rattle.grasp_crew.specs.Listener.{first_listener, listener_call, listener_after, listener_woken};

use crate::replies::is_registering;
use grasp_cbor::{Chars, OutOfMemory};
use grasp_node_main::NamedReader;
use grasp_types::{Input, Reply};
use std::alloc::Global;
use std::marker::Model;

/// An agent that reads what floods reported of an objective, as long as it serves.
#[derive(Drop)]
pub struct Listener {
    reader: NamedReader,
    awake: bool,
}

impl Model for Listener {
    ghost use Rattle.std.specs.Coded.{codes};
    ghost use Rattle.grasp_types.specs.contracts.flood.FloodRead as read;
    ghost use Rattle.grasp_crew.specs.Listener.{ListenerState};

    ghost Value = { ListenerState };

    ghost coded = { Prim.hlevel (codes, read.the_row.coded) };

    ghost view = { λ l. record { reader = l.reader; awake = l.awake } };
}

impl Listener {
    /// A reader of this number and objective that has made no call.
    pub fn open(alloc: Global, number: u8, name: Chars) -> Result<Listener, OutOfMemory>
        ensures { IfOk result (λ l. l ≡ first_listener number name) }
    {
        Ok(Listener {
            reader: NamedReader::open(alloc, number, name)?,
            awake: true,
        })
    }

    /// Whether a call is due.
    pub fn is_due(&self) -> bool
        ensures { result ≡ self.now.awake }
    {
        self.awake
    }

    /// Its next call.
    pub fn call(&self) -> Result<Input, OutOfMemory>
        ensures { IfOk result (λ i. i ≡ listener_call self.now) }
    {
        self.reader.call()
    }

    /// Takes the reply to that call, and keeps what floods reported.
    #[tactic(auto, unfolding(crate::specs::Listener::listener_after))]
    pub fn take(&mut self, reply: Reply)
        ensures { self.new ≡ listener_after self.old reply }
    {
        self.awake = is_registering(&reply);
        self.reader.keep(reply);
    }

    /// Something came that it may read.
    pub fn wake(&mut self)
        ensures { self.new ≡ listener_woken self.old }
    {
        self.awake = true;
    }

    /// The reader.
    pub fn reader(&self) -> &NamedReader
        ensures { result.now ≡ self.now.reader }
    {
        &self.reader
    }
}
