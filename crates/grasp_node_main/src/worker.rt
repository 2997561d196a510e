//! The agents of a node.

ghost use Rattle.std.specs.Prelude.{◌≡◌, IfOk, OnOk, OnErr};
ghost use Rattle.grasp_node_main.specs.Workers.{ready_worker, call_of, answered};

use crate::manager::Manager;
use crate::named_reader::NamedReader;
use grasp_agent::{Agent, Beacon};
use grasp_cbor::OutOfMemory;
use grasp_types::{Input, Reply};

/// An agent of a node.
#[derive(Drop)]
pub enum Worker {
    /// It manages prefixes.
    Manager(Manager),
    /// It announces a value.
    Beacon(Beacon),
    /// It reads what floods tell.
    Reader(NamedReader),
}

impl Worker {
    /// Makes the agent ready for its turn: one that manages prefixes is given a want, where it takes one. After an `Err` it
    /// is as before.
    pub fn ready(&mut self) -> Result<(), OutOfMemory>
        ensures ready { OnOk result (self.new ≡ ready_worker self.old) }
        ensures stays { OnErr result (self.new ≡ self.old) }
    {
        match self {
            Worker::Manager(manager) => manager.ready(),
            Worker::Beacon(_) | Worker::Reader(_) => Ok(()),
        }
    }

    /// The call of an agent that is ready.
    pub fn call(&self) -> Result<Input, OutOfMemory>
        ensures { IfOk result (λ i. i ≡ call_of self.now) }
    {
        match self {
            Worker::Manager(manager) => manager.call(),
            Worker::Beacon(beacon) => Ok(Input::Api {
                asa: beacon.asa(),
                call: beacon.next()?,
            }),
            Worker::Reader(reader) => reader.call(),
        }
    }

    /// Takes the reply to that call.
    pub fn take(&mut self, reply: Reply)
        ensures { self.new ≡ answered self.old reply }
    {
        match self {
            Worker::Manager(manager) => manager.take(&reply),
            Worker::Beacon(beacon) => beacon.take(&reply),
            Worker::Reader(reader) => reader.keep(reply),
        }
    }
}
