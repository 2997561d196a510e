//! Streams that are opened where they were dialled to.

ghost use Rattle.std.specs.Prelude.{◌≡◌, length, IfOk, OnErr};
ghost use Rattle.grasp_model_network.specs.Setting.{numbered};
ghost use Rattle.grasp_model_network.specs.declared.event.Event.TheVariants as event;
ghost use Rattle.grasp_simulator.specs.Arriving.{waiting_in, is_taken};
ghost use Rattle.grasp_simulator.specs.WorldSteps.{Runs, MayStarve};

use crate::opening::{address_of, listener};
use crate::seat::is_starved;
use crate::stream::{Standing, far_number};
use crate::world::World;
use grasp_cbor::OutOfMemory;
use grasp_laws_delivery::streams_are_ready;
use grasp_model_network::Report;
use grasp_types::{Input, Reply};

/// A stream that isn't opened yet: the node that dialled, and the one that listens where it dialled to.
#[derive(Clone, Copy, Debug, PartialEq, Eq)]
pub struct Waiting {
    /// The node that dialled.
    pub near: u8,
    /// The node that is to open it.
    pub node: u8,
}

/// Whether the node took the stream.
fn is_taken(reply: &Reply) -> bool
    ensures { result ≡ is_taken reply.now }
{
    match reply {
        Reply::Turned => false,
        _ => true,
    }
}

impl World {
    /// A stream is opened at the node that listens where it was dialled to.
    pub(crate) fn arrive(&mut self, stream: u64, hold: bool) -> Result<Report, OutOfMemory>
        ensures runs { IfOk result (λ report. Runs self.old self.new (event.Arrive stream hold) report) }
        ensures wanted { OnErr result (MayStarve self.old (event.Arrive stream hold)) }
        ensures count { length self.new.seats.items ≡ length self.old.seats.items }
    {
        streams_are_ready();
        let Some(waiting) = self.waiting_at(stream) else {
            return Ok(Report::Nothing);
        };
        let node = waiting.node;
        if !self.has(node) {
            return Ok(Report::Nothing);
        }
        let number = far_number(stream);
        let from = address_of(waiting.near);
        let life = self.seats[usize::from(node - 1)].life;
        let reply = self.seats[usize::from(node - 1)].step(Input::Opened {
            stream: number,
            from,
        });
        if is_starved(&reply) {
            return Err(OutOfMemory);
        }
        self.streams.open(stream, life, is_taken(&reply));
        self.send_behind(node, hold)?;
        Ok(Report::Reply(reply))
    }

    /// The stream of this number, where it isn't opened yet and a node listens where it was dialled to.
    pub(crate) fn waiting_at(&self, k: u64) -> Option<Waiting>
        ensures { result ≡ waiting_in self.now.lives self.now.plan.nodes (numbered self.now.streams.list.items k) }
    {
        let stream = self.streams.get(k)?;
        if stream.far_side == Standing::NotYet {
            let node = listener(self.plan.nodes, &stream.to)?;
            let near = self.member(stream.near)?;
            Some(Waiting { near, node })
        } else {
            None
        }
    }
}
