//! Bytes of streams that come to nodes of a network.

ghost use Rattle.std.specs.Prelude.{◌≡◌, length, IfOk, OnErr};
ghost use Rattle.grasp_cbor.specs.Bytes.{AllBytes};
ghost use Rattle.grasp_model_network.specs.declared.event.Event.TheVariants as event;
ghost use Rattle.grasp_simulator.specs.WorldSteps.{Runs, MayStarve};

use crate::seat::is_starved;
use crate::world::World;
use grasp_cbor::{Octets, OutOfMemory};
use grasp_laws_delivery::{steps_are_present, streams_are_ready};
use grasp_model_network::Report;
use grasp_types::Input;

impl World {
    /// The next so many bytes of a stream are delivered to a side of it, or all that are left.
    pub(crate) fn bytes(
        &mut self,
        stream: u64,
        far: bool,
        count: u64,
        hold: bool,
    ) -> Result<Report, OutOfMemory>
        ensures runs { IfOk result (λ report. Runs self.old self.new (event.Bytes stream far count hold) report) }
        ensures wanted { OnErr result (MayStarve self.old (event.Bytes stream far count hold)) }
        ensures count { length self.new.seats.items ≡ length self.old.seats.items }
    {
        streams_are_ready();
        steps_are_present();
        let Some(end) = self.streams.side(stream, far) else {
            return Ok(Report::Nothing);
        };
        let Some(node) = self.owner(end.life) else {
            return Ok(Report::Nothing);
        };
        let alloc = self.streams.allocator();
        let next = self.streams.piece(stream, far, count);
        are_bytes(next);
        let bytes = Octets::of(alloc, next)?;
        self.streams.deliver(end.life, end.number, count);
        let reply = self.seats[usize::from(node - 1)].step(Input::Bytes {
            stream: end.number,
            bytes,
        });
        if is_starved(&reply) {
            return Err(OutOfMemory);
        }
        self.send_behind(node, hold)?;
        Ok(Report::Reply(reply))
    }
}

/// Bytes are numbers below 256.
pub(crate) fn are_bytes(bytes: &[u8])
    ensures { AllBytes bytes.now }
{
    let _count = bytes.len();
}
