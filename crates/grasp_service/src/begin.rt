//! The opening calls.

ghost use Rattle.std.specs.Prelude.{◌≡◌, MatchResult};
ghost use Rattle.grasp_service.specs.Openings.{opens_at, OpensOnce, Opens, Begins};
ghost use Rattle.grasp_service_visits.specs.Calling.{GoesSome};

use grasp_cbor::OutOfMemory;
use grasp_core::NodeCore;
use grasp_crew::Servant;
use grasp_shared::step_core;
use grasp_types::{ApiAnswer, Reply};

/// Makes the opening calls of each agent, in order. A call that isn't answered as an opening is answered as want of memory.
#[tactic(auto, using(crate::proofs::Openings::begins_none, crate::proofs::Openings::begins_all))]
pub(crate) fn begin_all(core: &mut NodeCore, crew: &mut [Servant]) -> Result<(), OutOfMemory>
    ensures { MatchResult result (λ _. Begins core.old crew.old core.new crew.new) (λ _. GoesSome core.old core.new) }
{
    for i in 0..crew.len() {
        begin(core, &mut crew[i])?;
    }
    Ok(())
}

/// Makes the opening calls of an agent.
#[tactic(auto, using(crate::proofs::Openings::opening_on))]
fn begin(core: &mut NodeCore, servant: &mut Servant) -> Result<(), OutOfMemory>
    ensures { MatchResult result (λ _. Opens core.old servant.old core.new servant.new) (λ _. GoesSome core.old core.new) }
{
    let is_first = servant.is_steward();
    let count = servant.opening_count();
    for place in 0..count {
        begin_once(core, servant, is_first, place)?;
    }
    Ok(())
}

/// Makes one of them.
#[tactic(auto, using(crate::proofs::Openings::beginning))]
fn begin_once(
    core: &mut NodeCore,
    servant: &mut Servant,
    is_first: bool,
    place: u32,
) -> Result<(), OutOfMemory>
    ensures { MatchResult result (λ _. OpensOnce core.old servant.old is_first place core.new servant.new) (λ _. GoesSome core.old core.new) }
{
    let input = servant.call()?;
    let reply = step_core(core, 0, input);
    if opens_at(is_first, place, &reply) {
        servant.take(0, reply);
        Ok(())
    } else {
        drop(reply);
        Err(OutOfMemory)
    }
}

/// Whether the opening call at this place is answered so: the agent of prefixes has the number 1, its objective is registered,
/// and nobody asks it yet; of the others each call is answered.
fn opens_at(is_first: bool, place: u32, reply: &Reply) -> bool
    ensures { result ≡ opens_at is_first place reply.now }
{
    if !is_first {
        return matches!(reply, Reply::Api(_));
    }
    match place {
        0 => matches!(reply, Reply::Api(ApiAnswer::Asa(1))),
        1 => matches!(reply, Reply::Api(ApiAnswer::Done)),
        _ => matches!(reply, Reply::Api(ApiAnswer::NotYet)),
    }
}
