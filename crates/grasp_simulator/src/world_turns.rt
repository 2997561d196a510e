//! What is done in a network beside its events: prefixes in doubt are settled, and nodes begin anew.

ghost use Rattle.std.specs.Prelude.{◌≡◌, ◌+◌, ◌≤◌, length, OnOk};
ghost use Rattle.grasp_model_network.specs.Plans.{IsGoodPlan, IsNode};
ghost use Rattle.grasp_model_network.specs.declared.turn.Turn.TheVariants as turn;
ghost use Rattle.grasp_pool.specs.Listings.{AreDisjoint, all_of};
ghost use Rattle.grasp_simulator.specs.Restarts.{AreMarked, BeginsAnew};
ghost use Rattle.grasp_simulator.specs.WorldSteps.{IsAskedFor, Turned};

use crate::marks::Mark;
use crate::opening::reopen_seat;
use crate::seat::Seat;
use crate::world::World;
use grasp_cbor::OutOfMemory;
use grasp_laws_delivery::streams_are_ready;
use grasp_laws_prefixes::grounds_hold;
use grasp_model_network::{Report, Turn, WorldStop};
use grasp_pool::PoolImage;
use grasp_types::{List, Prefix};

impl World {
    /// A turn is taken: an event happens as in `step`, a prefix that a node has in doubt and that is never accepted is settled
    /// there, or a node begins anew by an image of its pool, with the opening calls of its agent made. A settling and a restart
    /// report nothing. A settling takes no memory. After an `Err` every later turn is answered by it again.
    pub fn turn(&mut self, turn: Turn) -> Result<Report, WorldStop>
        requires { IsAskedFor self.old turn }
        ensures { Turned self.old self.new turn result }
    {
        match turn {
            Turn::Event(event) => self.step(event),
            Turn::Settle { node, prefix } => self.settle(node, prefix),
            Turn::Restart { node, image } => self.restart(node, &image),
        }
    }

    /// A prefix in doubt is settled.
    fn settle(&mut self, node: u8, prefix: Prefix) -> Result<Report, WorldStop>
        requires { IsAskedFor self.old (turn.Settle node prefix) }
        ensures { Turned self.old self.new (turn.Settle node prefix) result }
    {
        if let Some(stop) = self.stopped {
            return Err(stop);
        }
        grounds_hold();
        self.seats[usize::from(node - 1)].settle(prefix);
        Ok(Report::Nothing)
    }

    /// A node begins anew by this image.
    fn restart(&mut self, node: u8, image: &PoolImage) -> Result<Report, WorldStop>
        requires { IsAskedFor self.old (turn.Restart node image.now) }
        ensures { Turned self.old self.new (turn.Restart node image.now) result }
    {
        if let Some(stop) = self.stopped {
            return Err(stop);
        }
        match self.begin_anew(node, image) {
            Ok(()) => Ok(Report::Nothing),
            Err(OutOfMemory) => Err(self.stop(WorldStop::OutOfMemory)),
        }
    }

    /// A node begins anew by this image. After an `Err` nothing is said of the network but that it has as many nodes.
    fn begin_anew(&mut self, node: u8, image: &PoolImage) -> Result<(), OutOfMemory>
        requires node { IsNode (length self.old.seats.items) node }
        requires good { IsGoodPlan self.old.plan }
        requires planned { length self.old.seats.items ≡ self.old.plan.nodes }
        requires few { length image.now.free + length image.now.doubtful ≤ 4096 }
        requires disjoint { AreDisjoint (all_of image.now) }
        ensures begins { OnOk result (BeginsAnew self.old self.new node image.now) }
        ensures count { length self.new.seats.items ≡ length self.old.seats.items }
    {
        grounds_hold();
        streams_are_ready();
        let alloc = self.streams.allocator();
        self.lives.push(node)?;
        let next = reopen_seat(alloc, &self.plan, node, self.lives.len(), image)?;
        mark_all(&mut self.marks, &self.seats, node)?;
        let life = self.seats[usize::from(node - 1)].life;
        self.streams.end_life(life, node, self.plan.nodes);
        self.notes
            .end_life(node, &self.seats[usize::from(node - 1)].agent);
        self.seats[usize::from(node - 1)] = next;
        Ok(())
    }
}

/// A node begins anew: streams that were dialled at these nodes, go there and weren't sent yet arrive nowhere. After an `Err`
/// nothing is said of the marks.
fn mark_all(marks: &mut List<Mark>, seats: &[Seat], node: u8) -> Result<(), OutOfMemory>
    ensures { OnOk result (AreMarked seats.now node marks.old marks.new) }
{
    for seat in seats {
        marks.push(Mark {
            life: seat.life,
            node,
            dialled: seat.core.dialled(),
        })?;
    }
    Ok(())
}
