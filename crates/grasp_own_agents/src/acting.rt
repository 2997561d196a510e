//! The calls of agents.

ghost use Rattle.std.specs.Prelude.{◌≡◌, MatchResult};
ghost use Rattle.grasp_own_agents.specs.Acting.{Acts, ActsAll};
ghost use Rattle.grasp_service_visits.specs.Calling.{GoesSome};

use grasp_agent::Agent;
use grasp_cbor::OutOfMemory;
use grasp_core::NodeCore;
use grasp_shared::step_core;
use grasp_types::Input;

/// Each agent makes its next call, in order, at the reading 0, and takes the reply. Where there is no memory for a call, those of the
/// agents before it were made.
#[tactic(auto, using(crate::proofs::Calls::acts_none, crate::proofs::Calls::acts_all))]
pub(crate) fn act_all<A: Agent>(core: &mut NodeCore, agents: &mut [A]) -> Result<(), OutOfMemory>
    ensures { MatchResult result (λ _. ActsAll A.Agent core.old agents.old core.new agents.new) (λ _. GoesSome core.old core.new) }
{
    for i in 0..agents.len() {
        act(core, &mut agents[i])?;
    }
    Ok(())
}

/// An agent makes its next call, and takes the reply.
#[tactic(auto, using(crate::proofs::Calls::acting))]
fn act<A: Agent>(core: &mut NodeCore, agent: &mut A) -> Result<(), OutOfMemory>
    ensures { MatchResult result (λ _. Acts A.Agent core.old agent.old core.new agent.new) (λ _. core.new ≡ core.old) }
{
    let call = agent.next()?;
    let asa = agent.asa();
    let reply = step_core(core, 0, Input::Api { asa, call });
    agent.take(&reply);
    drop(reply);
    Ok(())
}
