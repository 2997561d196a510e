//! What may be done in a network beside its events.

ghost use Rattle.std.specs.Prelude.{◌≡◌, ◌↔◌, IsTrue, None};
ghost use Rattle.grasp_model_network.specs.Setting.{Setting};
ghost use Rattle.grasp_model_network.specs.Settling.{IsAsking};
ghost use Rattle.grasp_model_network.specs.Streams.{StreamState};
ghost use Rattle.grasp_model_network.specs.World.{WorldState, end_of};
ghost use Rattle.grasp_simulator.specs.Asking.{asker_of};
ghost use Rattle.grasp_simulator.specs.Lending.{TellsDead, TellsMayRestart};
ghost use Rattle.grasp_simulator.specs.Remembering.{last_note};
ghost use Rattle.grasp_simulator.specs.WorldStands.{HasNode, WorldGoes};

use crate::images::may_reopen;
use crate::stream::LifeEnd;
use crate::world::World;
use grasp_laws_prefixes::grounds_hold;
use grasp_pool::PoolImage;
use grasp_types::Prefix;

impl World {
    /// Whether a prefix may be settled at the node of this number: the node has it in doubt, and it was offered on a stream on
    /// which who asked for it hasn't accepted and can't accept any more. It takes no memory.
    pub fn dead(&self, node: u8, prefix: Prefix) -> bool
        requires { HasNode self.now node }
        ensures { TellsDead self.now node prefix result }
    {
        grounds_hold();
        if !self.seat(node).agent.pool().is_doubtful(prefix) {
            return false;
        }
        let Some(asker) = self.asker(node, prefix) else {
            return false;
        };
        if self.notes.has_accepted(asker) {
            return false;
        }
        !self.is_asking(asker)
    }

    /// Whether the node of this number may begin anew by this image: a pool can have its prefixes, each address that is to be free is
    /// free at the node or in a prefix that it was to offer, and all that it has offered or in doubt is to be in doubt. It takes no
    /// memory.
    pub fn may_restart(&self, node: u8, image: &PoolImage) -> bool
        requires { HasNode self.now node }
        ensures { TellsMayRestart self.now node image.now result }
    {
        may_reopen(&self.seat(node).agent, image)
    }

    /// The near end of the stream on which the node offered the prefix last, where the node is its far end.
    fn asker(&self, node: u8, prefix: Prefix) -> Option<LifeEnd>
        ensures { result ≡ asker_of self.now.streams.list.items (last_note node prefix self.now.notes.offers.items None) }
    {
        let number = self.notes.last(node, prefix)?.stream?;
        if number % 2 == 0 {
            return None;
        }
        let stream = self.streams.get(number / 2 + 1)?;
        Some(LifeEnd {
            life: stream.near,
            number: stream.number,
        })
    }

    /// Whether a live session on the stream with this end has no outcome, and the end's life is a present one.
    fn is_asking(&self, end: LifeEnd) -> bool
        ensures { (s : Setting) (w : WorldState) (t : StreamState) → WorldGoes self.now s w → t.near ≡ end_of end.life end.number → IsTrue result ↔ IsAsking w t }
    {
        grounds_hold();
        let Some(node) = self.owner(end.life) else {
            return false;
        };
        let seat = &self.seats[usize::from(node - 1)];
        if seat.life != end.life {
            return false;
        }
        seat.goes_on(end.number)
    }
}
