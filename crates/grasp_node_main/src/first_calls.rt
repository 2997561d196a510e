//! The opening calls of the agent that manages prefixes.

ghost use Rattle.std.specs.Prelude.{◌≡◌, IfOk, OnOk};
ghost use Rattle.grasp_agent.specs.Calls.{next_call};
ghost use Rattle.grasp_agent.specs.Replies.{after_reply};
ghost use Rattle.grasp_agent.specs.States.{first_agent};
ghost use Rattle.grasp_node_main.specs.Openings.{openings, opened_agent};
ghost use Rattle.grasp_shared.specs.Adding.{Adds};
ghost use Rattle.grasp_shared.specs.Calls.{answered, GoesOn};
ghost use Rattle.grasp_types.specs.declared.reply.ApiAnswer.TheVariants as answer;
ghost use Rattle.grasp_types.specs.declared.reply.Reply.TheVariants as replied;
ghost use Rattle.grasp_types.specs.declared.traffic.Input.TheVariants as input;

use grasp_agent::{Agent, PrefixAgent};
use grasp_cbor::OutOfMemory;
use grasp_core::NodeCore;
use grasp_shared::step_core;
use grasp_types::{ApiAnswer, Input, Reply};

/// Makes the three opening calls of an agent that has made no call, at the reading 0: it registers itself and its objective,
/// and listens. It is caller 1 of the core's history.
///
/// An `Err` comes for want of memory: there was none for a call, or a call wasn't answered as it is at a node to which nothing
/// has happened. Nothing is claimed of the core and of the agent then.
pub fn open_agent(core: &mut NodeCore, agent: &mut PrefixAgent) -> Result<(), OutOfMemory>
    requires { agent.old ≡ first_agent agent.old.pool }
    ensures calls { OnOk result (Adds core.old openings core.new) }
    ensures agent { OnOk result (agent.new ≡ opened_agent agent.old.pool) }
{
    register(core, agent)?;
    declare(core, agent)?;
    listen(core, agent)?;
    Ok(())
}

/// Makes the agent's next call, which is to be answered by the number 1.
#[tactic(auto, using(crate::proofs::Openings::goes_as, crate::proofs::Openings::after_as))]
fn register(core: &mut NodeCore, agent: &mut PrefixAgent) -> Result<(), OutOfMemory>
    ensures call { OnOk result (GoesOn core.old (answered 0 (input.Api agent.old.asa (next_call agent.old)) (replied.Api (answer.Asa 1))) core.new) }
    ensures agent { OnOk result (agent.new ≡ after_reply agent.old (replied.Api (answer.Asa 1))) }
{
    let reply = opening_call(core, agent)?;
    expect_number(&reply)?;
    Ok(())
}

/// Makes the agent's next call, which is to be done.
#[tactic(auto, using(crate::proofs::Openings::goes_as, crate::proofs::Openings::after_as))]
fn declare(core: &mut NodeCore, agent: &mut PrefixAgent) -> Result<(), OutOfMemory>
    ensures call { OnOk result (GoesOn core.old (answered 0 (input.Api agent.old.asa (next_call agent.old)) (replied.Api answer.Done)) core.new) }
    ensures agent { OnOk result (agent.new ≡ after_reply agent.old (replied.Api answer.Done)) }
{
    let reply = opening_call(core, agent)?;
    expect_done(&reply)?;
    Ok(())
}

/// Makes the agent's next call, for which nothing is to have come yet.
#[tactic(auto, using(crate::proofs::Openings::goes_as, crate::proofs::Openings::after_as))]
fn listen(core: &mut NodeCore, agent: &mut PrefixAgent) -> Result<(), OutOfMemory>
    ensures call { OnOk result (GoesOn core.old (answered 0 (input.Api agent.old.asa (next_call agent.old)) (replied.Api answer.NotYet)) core.new) }
    ensures agent { OnOk result (agent.new ≡ after_reply agent.old (replied.Api answer.NotYet)) }
{
    let reply = opening_call(core, agent)?;
    expect_nothing(&reply)?;
    Ok(())
}

/// Makes the agent's next call, and gives the reply.
fn opening_call(core: &mut NodeCore, agent: &mut PrefixAgent) -> Result<Reply, OutOfMemory>
    ensures call { IfOk result (λ reply. GoesOn core.old (answered 0 (input.Api agent.old.asa (next_call agent.old)) reply) core.new) }
    ensures agent { IfOk result (λ reply. agent.new ≡ after_reply agent.old reply) }
{
    let call = agent.next()?;
    let asa = agent.asa();
    let reply = step_core(core, 0, Input::Api { asa, call });
    agent.take(&reply);
    Ok(reply)
}

/// The agent is agent 1; else memory was wanted.
fn expect_number(reply: &Reply) -> Result<(), OutOfMemory>
    ensures { OnOk result (reply.now ≡ replied.Api (answer.Asa 1)) }
{
    match reply {
        Reply::Api(ApiAnswer::Asa(1)) => Ok(()),
        _ => Err(OutOfMemory),
    }
}

/// It is done; else memory was wanted.
fn expect_done(reply: &Reply) -> Result<(), OutOfMemory>
    ensures { OnOk result (reply.now ≡ replied.Api answer.Done) }
{
    match reply {
        Reply::Api(ApiAnswer::Done) => Ok(()),
        _ => Err(OutOfMemory),
    }
}

/// Nothing has come yet; else memory was wanted.
fn expect_nothing(reply: &Reply) -> Result<(), OutOfMemory>
    ensures { OnOk result (reply.now ≡ replied.Api answer.NotYet) }
{
    match reply {
        Reply::Api(ApiAnswer::NotYet) => Ok(()),
        _ => Err(OutOfMemory),
    }
}
