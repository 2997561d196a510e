//! The agent that manages a node's prefixes, with what it is to want.

ghost use Rattle.std.specs.Prelude.{◌≡◌, ◌-◌, IfOk, OnOk, OnErr, slice_set};
ghost use Rattle.grasp_agent.specs.Calls.{next_call};
ghost use Rattle.grasp_agent.specs.States.{AgentState};
ghost use Rattle.grasp_pool.specs.Functions.{pool_of};
ghost use Rattle.grasp_types.specs.declared.traffic.Input.TheVariants as input;
ghost use Rattle.grasp_shared.specs.Adding.{Adds};
ghost use Rattle.grasp_node_main.specs.Openings.{openings};
ghost use Rattle.grasp_node_main.specs.Manager.{opened_manager, ready_manager, manager_after, ends_with};

use crate::first_calls::open_agent;
use crate::want_plan::WantPlan;
use grasp_agent::{Agent, PrefixAgent, WantEnd};
use grasp_cbor::OutOfMemory;
use grasp_core::NodeCore;
use grasp_pool::{Pool, RootPrefix};
use grasp_types::{Input, List, Plain, Reply};
use std::alloc::Global;
use std::marker::Model;

/// The agent that manages a node's prefixes (RFC 8992), and the wants that it is given one after the other.
#[derive(Drop)]
pub struct Manager {
    agent: PrefixAgent,
    wants: List<WantPlan>,
    ends: Vec<Option<WantEnd>>,
    taken: u64,
}

impl Model for Manager {
    ghost use Rattle.grasp_node_main.specs.Manager.{ManagerState};

    ghost Value = { ManagerState };

    ghost view = { λ m. record { agent = m.agent; wants = m.wants; ends = m.ends.items; taken = m.taken } };
}

impl Manager {
    /// An agent that holds these roots, which `Pool::open` accepts, and that has made its opening calls, as by `open_agent`.
    ///
    /// Roots that aren't accepted are answered as want of memory. Nothing is claimed of the core after an `Err`.
    pub fn open(
        alloc: Global,
        core: &mut NodeCore,
        roots: &[RootPrefix],
        wants: List<WantPlan>,
    ) -> Result<Manager, OutOfMemory>
        ensures opened { IfOk result (λ m. m ≡ opened_manager (pool_of roots.now) wants) }
        ensures calls { IfOk result (λ _. Adds core.old openings core.new) }
    {
        let Ok(mut agent) = PrefixAgent::open(alloc, roots) else {
            return Err(OutOfMemory);
        };
        open_agent(core, &mut agent)?;
        let mut ends = Vec::new(alloc);
        for _want in wants.slice() {
            ends.push(None)?;
        }
        Ok(Manager {
            agent,
            wants,
            ends,
            taken: 0,
        })
    }

    /// Gives the agent its next want, where it takes one. After an `Err` it is as before.
    #[tactic(auto, unfolding(crate::specs::Manager::ready_manager))]
    pub fn ready(&mut self) -> Result<(), OutOfMemory>
        ensures ready { OnOk result (self.new ≡ ready_manager self.old) }
        ensures stays { OnErr result (self.new ≡ self.old) }
    {
        let Some(want) = self.wants.at(self.taken) else {
            return Ok(());
        };
        let _count = self.wants.len();
        let peer = want.peer.copy()?;
        if self.agent.want(want.length, want.longest, peer).is_ok() {
            self.taken += 1;
        }
        Ok(())
    }

    /// The agent's next call.
    pub fn call(&self) -> Result<Input, OutOfMemory>
        ensures { IfOk result (λ i. i ≡ input.Api self.now.agent.asa (next_call self.now.agent)) }
    {
        Ok(Input::Api {
            asa: self.agent.asa(),
            call: self.agent.next()?,
        })
    }

    /// Takes the reply to that call.
    #[tactic(auto, unfolding(crate::specs::Manager::manager_after))]
    pub fn take(&mut self, reply: &Reply)
        ensures { self.new ≡ manager_after self.old reply.now }
    {
        let wanted = self.agent.wanting();
        self.agent.take(reply);
        if wanted && !self.agent.wanting() {
            self.note_end();
        }
    }

    /// The prefixes that the agent holds.
    pub fn pool(&self) -> &Pool
        ensures { result.now ≡ self.now.agent.pool }
    {
        self.agent.pool()
    }

    /// What the agent is to want.
    pub fn wants(&self) -> &[WantPlan]
        ensures { result.now ≡ self.now.wants }
    {
        self.wants.slice()
    }

    /// How each want ended, where it did.
    pub fn ends(&self) -> &[Option<WantEnd>]
        ensures { result.now ≡ self.now.ends }
    {
        &self.ends
    }

    /// Notes how the want ended that was taken last.
    fn note_end(&mut self)
        ensures { self.new ≡ record self.old { ends = slice_set self.old.ends (self.old.taken - 1) self.old.agent.last } }
    {
        let place = self.taken.saturating_sub(1) as usize;
        if place < self.ends.len() {
            self.ends[place] = self.agent.last();
        }
    }
}
