//! Sides of streams that are told that their stream is closed.

ghost use Rattle.std.specs.Prelude.{◌≡◌, length, IfOk, OnErr};
ghost use Rattle.grasp_model_network.specs.declared.event.Event.TheVariants as event;
ghost use Rattle.grasp_simulator.specs.WorldSteps.{Runs, MayStarve};

use crate::seat::is_starved;
use crate::world::World;
use grasp_cbor::OutOfMemory;
use grasp_laws_delivery::{steps_are_present, streams_are_ready};
use grasp_model_network::Report;
use grasp_types::Input;

impl World {
    /// A side of a stream is told that it is closed, and gets nothing more.
    pub(crate) fn cut(&mut self, stream: u64, far: bool, hold: bool) -> Result<Report, OutOfMemory>
        ensures runs { IfOk result (λ report. Runs self.old self.new (event.Cut stream far hold) report) }
        ensures wanted { OnErr result (MayStarve self.old (event.Cut stream far hold)) }
        ensures count { length self.new.seats.items ≡ length self.old.seats.items }
    {
        streams_are_ready();
        steps_are_present();
        let Some(end) = self.streams.side(stream, far) else {
            return Ok(Report::Nothing);
        };
        let Some(node) = self.owner(end.life) else {
            return Ok(Report::Nothing);
        };
        self.streams.tell_closed(end.life, end.number);
        let reply = self.seats[usize::from(node - 1)].step(Input::Closed { stream: end.number });
        if is_starved(&reply) {
            return Err(OutOfMemory);
        }
        self.send_behind(node, hold)?;
        Ok(Report::Reply(reply))
    }
}
