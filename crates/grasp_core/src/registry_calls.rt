//! The calls on agents and objectives (RFC 8991, section 2.3.3).

ghost use Rattle.std.specs.Prelude.{◌≡◌, Some, None, false};
ghost use Rattle.grasp_session.specs.Sessions.{owner_reply};
ghost use Rattle.grasp_model_node.specs.Node.{NodeState};
ghost use Rattle.grasp_model_node.specs.Refusals.{early};
ghost use Rattle.grasp_model_node.specs.RegistryCalls.{MayRegisterAsa, after_registering_asa, MayDeregisterAsa, after_deregistering_asa};
ghost use Rattle.grasp_model_node.specs.RegistryCalls.{without_agent, without_searches, without_session, without_sessions, MayRegisterObjective};
ghost use Rattle.grasp_model_node.specs.RegistryCalls.{after_registering_objective, MayDeregisterObjective, after_deregistering_objective};
ghost use Rattle.grasp_model_node.specs.RegistryCalls.{without_objective, MayStopListening, after_stopping, with_mark, MayOffer, after_offering};
ghost use Rattle.grasp_core.specs.Stands.{NodeStands};
ghost use Rattle.grasp_model_node.specs.Tests.{objective_tests};

use crate::NodeCore;
use crate::declining::MOST_SESSIONS;
use grasp_cbor::Chars;
use grasp_types::{ApiAnswer, ApiRefused, Flags, Value};

impl NodeCore {
    /// Registers an agent under this name.
    #[tactic(auto, unfolding(grasp_model_node::specs::Moves::with_registrations))]
    pub(crate) fn register_asa(&mut self, name: Chars) -> Result<ApiAnswer, ApiRefused>
        ensures { (n : NodeState) → NodeStands self.old n → MayRegisterAsa n name result × NodeStands self.new (after_registering_asa n name result) }
    {
        match self.registry.register_asa(name) {
            Ok(asa) => Ok(ApiAnswer::Asa(asa)),
            Err(refused) => Err(refused),
        }
    }

    /// Takes an agent out, with its objectives, searches and sessions.
    pub(crate) fn deregister_asa(&mut self, asa: u32) -> Result<ApiAnswer, ApiRefused>
        ensures { (n : NodeState) → NodeStands self.old n
            → MayDeregisterAsa n asa result × NodeStands self.new (after_deregistering_asa n asa result) }
    {
        self.known(asa)?;
        let Ok(plan) = self.plan_for(asa) else {
            return Err(ApiRefused::OutOfMemory);
        };
        self.drop_agent(asa);
        self.decline_all(plan);
        self.drop_searches(asa);
        self.drop_sessions(asa);
        Ok(ApiAnswer::Done)
    }

    /// Registers an objective for this agent.
    #[tactic(auto, unfolding(grasp_model_node::specs::Moves::with_registrations))]
    pub(crate) fn register_objective(
        &mut self,
        asa: u32,
        name: Chars,
        flags: Flags,
    ) -> Result<ApiAnswer, ApiRefused>
        ensures { (n : NodeState) → NodeStands self.old n
            → MayRegisterObjective n asa name flags result
            × NodeStands self.new (after_registering_objective n asa name flags result) }
    {
        match self.registry.register_objective(asa, name, flags) {
            Ok(()) => Ok(ApiAnswer::Done),
            Err(refused) => Err(refused),
        }
    }

    /// Takes an objective of this agent out, and declines its untaken sessions.
    pub(crate) fn deregister_objective(
        &mut self,
        asa: u32,
        name: Chars,
    ) -> Result<ApiAnswer, ApiRefused>
        ensures { (n : NodeState) → NodeStands self.old n
            → MayDeregisterObjective n asa name result × NodeStands self.new (after_deregistering_objective n asa name result) }
    {
        self.owned(asa, &name)?;
        let Ok(plan) = self.plan_of(&name) else {
            return Err(ApiRefused::OutOfMemory);
        };
        self.drop_objective(asa, &name);
        self.decline_all(plan);
        Ok(ApiAnswer::Done)
    }

    /// Listens no longer, and declines the untaken sessions of the objective.
    pub(crate) fn stop_listen_negotiate(
        &mut self,
        asa: u32,
        name: Chars,
    ) -> Result<ApiAnswer, ApiRefused>
        ensures { (n : NodeState) → NodeStands self.old n
            → MayStopListening n asa name result × NodeStands self.new (after_stopping n asa name result) }
    {
        let _flags = match self.negotiable(asa, &name) {
            Ok(flags) => flags,
            Err(refused) => return Err(refused),
        };
        let Ok(plan) = self.plan_of(&name) else {
            return Err(ApiRefused::OutOfMemory);
        };
        self.end_listening(asa, &name);
        self.decline_all(plan);
        Ok(ApiAnswer::Done)
    }

    /// Offers a value for synchronization. It takes no memory.
    pub(crate) fn listen_synchronize(
        &mut self,
        asa: u32,
        name: Chars,
        value: Value,
    ) -> Result<ApiAnswer, ApiRefused>
        ensures { (n : NodeState) → NodeStands self.old n
            → MayOffer n asa name result × NodeStands self.new (after_offering n asa name (Some value) result) }
    {
        self.offer(asa, &name, Some(value))
    }

    /// Offers no value any more. It takes no memory.
    pub(crate) fn stop_listen_synchronize(
        &mut self,
        asa: u32,
        name: Chars,
    ) -> Result<ApiAnswer, ApiRefused>
        ensures { (n : NodeState) → NodeStands self.old n → MayOffer n asa name result × NodeStands self.new (after_offering n asa name None result) }
    {
        self.offer(asa, &name, None)
    }

    /// Offers this value for synchronization in place of the last one, or none.
    #[tactic(auto, unfolding(grasp_model_node::specs::Moves::with_registrations))]
    fn offer(
        &mut self,
        asa: u32,
        name: &Chars,
        value: Option<Value>,
    ) -> Result<ApiAnswer, ApiRefused>
        ensures { (n : NodeState) → NodeStands self.old n
            → MayOffer n asa name.now result × NodeStands self.new (after_offering n asa name.now value result) }
    {
        match self.registry.offer(asa, name, value) {
            Ok(()) => Ok(ApiAnswer::Done),
            Err(refused) => Err(refused),
        }
    }

    /// Whether this agent has registered the objective, or the first refusal that holds.
    fn owned(&self, asa: u32, name: &Chars) -> Result<(), ApiRefused>
        ensures { (n : NodeState) → NodeStands self.now n → result ≡ early (objective_tests n asa name.now) }
    {
        match self.registry.owned(asa, name) {
            Ok(_flags) => Ok(()),
            Err(refused) => Err(refused),
        }
    }

    /// An agent leaves, and its objectives with it.
    #[tactic(auto, unfolding(grasp_model_node::specs::Moves::with_registrations))]
    fn drop_agent(&mut self, asa: u32)
        ensures { (n : NodeState) → NodeStands self.old n → NodeStands self.new (without_agent n asa) }
    {
        let _answer = self.registry.deregister_asa(asa);
    }

    /// An objective leaves.
    #[tactic(auto, unfolding(grasp_model_node::specs::Moves::with_registrations))]
    fn drop_objective(&mut self, asa: u32, name: &Chars)
        ensures { (n : NodeState) → NodeStands self.old n → NodeStands self.new (without_objective n asa name.now) }
    {
        let _answer = self.registry.deregister_objective(asa, name);
    }

    /// An objective isn't listened for any more.
    #[tactic(auto, unfolding(grasp_model_node::specs::Moves::with_registrations))]
    fn end_listening(&mut self, asa: u32, name: &Chars)
        ensures { (n : NodeState) → NodeStands self.old n → NodeStands self.new (with_mark n asa name.now false) }
    {
        let _answer = self.registry.listen(asa, name, false);
    }

    /// The searches of an agent are dropped.
    #[tactic(auto, unfolding(grasp_model_node::specs::Moves::with_discoveries))]
    fn drop_searches(&mut self, asa: u32)
        ensures { (n : NodeState) → NodeStands self.old n → NodeStands self.new (without_searches n asa) }
    {
        self.discovery.drop_asa(asa);
    }

    /// The sessions of an agent leave, of which there are at most 64, and their streams begin closing.
    fn drop_sessions(&mut self, asa: u32)
        ensures { (n : NodeState) → NodeStands self.old n → NodeStands self.new (without_sessions 64 n asa) }
    {
        for _turn in 0..MOST_SESSIONS {
            self.drop_session(asa);
        }
    }

    /// One session of an agent leaves, if it has one, and its stream begins closing.
    fn drop_session(&mut self, asa: u32)
        ensures { (n : NodeState) → NodeStands self.old n → NodeStands self.new (without_session n (owner_reply n.sessions asa)) }
    {
        let Some(handle) = self.table.of_owner(asa) else {
            return;
        };
        let stream = self.table.stream(handle);
        self.remove_session(handle);
        match stream {
            Some(stream) => self.begin_closing(stream),
            None => {}
        }
    }
}
