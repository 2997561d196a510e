//! Calls of a node's own agent.

ghost use Rattle.std.specs.Prelude.{◌≡◌, ◌↔◌, IfOk, IsTrue};
ghost use Rattle.grasp_agent.specs.Calls.{next_call};
ghost use Rattle.grasp_audit.specs.Lines.{TellsAgent};
ghost use Rattle.grasp_audit.specs.Standing.{HasLine};
ghost use Rattle.grasp_script.specs.Calls.{call_words};

use crate::numbers::call_fits;
use crate::split::are_same;
use grasp_agent::{Agent, PrefixAgent};
use grasp_cbor::OutOfMemory;
use grasp_record::{RecordInput, RecordLine};
use grasp_script::push_call;
use grasp_simulator::World;
use grasp_types::Call;
use std::alloc::Global;

/// Whether a line that is a call of the node's own agent is the one that the agent makes next.
pub(crate) fn is_of_agent(
    alloc: Global,
    world: &World,
    line: &RecordLine,
) -> Result<bool, OutOfMemory>
    requires { HasLine world.now line.now }
    ensures { IfOk result (λ is_so. TellsAgent world.now line.entry.now is_so) }
{
    match &line.input {
        RecordInput::Agent { call } => is_next(alloc, world.agent(line.node), call),
        _ => Ok(true),
    }
}

/// Whether this call, in words, is the one that the agent makes next.
fn is_next(alloc: Global, agent: &PrefixAgent, call: &Call) -> Result<bool, OutOfMemory>
    ensures { IfOk result (λ is_so. IsTrue is_so ↔ (call_words (next_call agent.now) ≡ call_words call.now)) }
{
    let next = agent.next()?;
    have_same_words(alloc, &next, call)
}

/// Whether two calls have the same words.
fn have_same_words(alloc: Global, one: &Call, other: &Call) -> Result<bool, OutOfMemory>
    ensures { IfOk result (λ is_so. IsTrue is_so ↔ (call_words one.now ≡ call_words other.now)) }
{
    call_fits(one);
    call_fits(other);
    let mut first = String::new(alloc);
    push_call(alloc, &mut first, one)?;
    let mut second = String::new(alloc);
    push_call(alloc, &mut second, other)?;
    Ok(are_same(first.as_bytes(), second.as_bytes()))
}
