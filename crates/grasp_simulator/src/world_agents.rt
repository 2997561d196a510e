//! Calls of the agents of a network's nodes.

ghost use Rattle.std.specs.Prelude.{◌≡◌, length, IfOk};
ghost use Rattle.grasp_model_network.specs.Plans.{IsNode};
ghost use Rattle.grasp_model_network.specs.declared.event.Event.TheVariants as event;
ghost use Rattle.grasp_simulator.specs.WorldSteps.{Runs};

use crate::notes::note_of;
use crate::world::World;
use grasp_cbor::OutOfMemory;
use grasp_laws_delivery::streams_are_ready;
use grasp_model_network::Report;

impl World {
    /// The agent of a node makes its next call.
    pub(crate) fn call_own(&mut self, node: u8, hold: bool) -> Result<Report, OutOfMemory>
        requires { IsNode (length self.old.seats.items) node }
        ensures runs { IfOk result (λ report. Runs self.old self.new (event.Agent node hold) report) }
        ensures count { length self.new.seats.items ≡ length self.old.seats.items }
    {
        streams_are_ready();
        let life = self.seats[usize::from(node - 1)].life;
        let made = self.seats[usize::from(node - 1)].own_step()?;
        self.places.note(life, &made.reply)?;
        self.notes.offer(note_of(node, life, made.begun))?;
        self.notes.accept(life, made.accepted)?;
        self.send_behind(node, hold)?;
        Ok(Report::Agent {
            call: made.call,
            reply: made.reply,
        })
    }
}
