//! How every step begins: the reading, and then what has come to its end by it.

ghost use Rattle.std.specs.Prelude.{◌≡◌, is_some};
ghost use Rattle.grasp_session.specs.Sessions.{expire_reply};
ghost use Rattle.grasp_model_node.specs.Begin.{begin, expired, expire_next, discoveries_expired, floods_expired};
ghost use Rattle.grasp_model_node.specs.Moves.{with_reading};
ghost use Rattle.grasp_model_node.specs.Node.{NodeState};
ghost use Rattle.grasp_core.specs.Stands.{NodeStands};

use crate::NodeCore;

/// How many sessions may time out in one step: as many as a node has at most.
const MOST_EXPIRED: u32 = 64;

impl NodeCore {
    /// The step begins at this reading.
    #[tactic(auto, unfolding(grasp_model_node::specs::Begin::begin))]
    pub(crate) fn begin(&mut self, now: u64)
        ensures { (n : NodeState) → NodeStands self.old n → NodeStands self.new (begin n now) }
    {
        self.advance(now);
        self.expire_sessions();
        self.expire_discoveries();
        self.expire_floods();
    }

    /// The reading becomes the larger one.
    #[tactic(auto, unfolding(grasp_model_node::specs::Moves::with_reading))]
    fn advance(&mut self, now: u64)
        ensures { (n : NodeState) → NodeStands self.old n → NodeStands self.new (with_reading n now) }
    {
        self.reading = self.reading.max(now);
    }

    /// Each session whose deadline has come times out, and its stream begins closing.
    fn expire_sessions(&mut self)
        ensures { (n : NodeState) → NodeStands self.old n → NodeStands self.new (expired 64 n) }
    {
        for turn in 0..MOST_EXPIRED {
            if !self.expire_next() {
                return;
            }
        }
    }

    /// The session of the least number whose deadline has come times out, and its stream begins closing: whether there
    /// was one.
    #[tactic(auto, unfolding(grasp_model_node::specs::Moves::with_sessions, grasp_model_node::specs::Moves::begin_closing))]
    fn expire_next(&mut self) -> bool
        ensures told { (n : NodeState) → NodeStands self.old n → result ≡ is_some (expire_reply n.sessions n.reading) }
        ensures stands { (n : NodeState) → NodeStands self.old n → NodeStands self.new (expire_next n) }
    {
        match self.table.expire_one(self.reading) {
            Some(stream) => {
                self.streams.close(stream);
                true
            }
            None => false,
        }
    }

    /// Searches whose time has come are over, and what was cached and remembered of discoveries ends with its time.
    #[tactic(auto, unfolding(grasp_model_node::specs::Moves::with_discoveries))]
    fn expire_discoveries(&mut self)
        ensures { (n : NodeState) → NodeStands self.old n → NodeStands self.new (discoveries_expired n) }
    {
        self.discovery.expire(self.reading);
    }

    /// What floods told, and what is remembered of floods, ends with its time.
    #[tactic(auto, unfolding(grasp_model_node::specs::Moves::with_floods))]
    fn expire_floods(&mut self)
        ensures { (n : NodeState) → NodeStands self.old n → NodeStands self.new (floods_expired n) }
    {
        self.floods.expire(self.reading);
    }
}
