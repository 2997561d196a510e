//! What visitors order.

ghost use Rattle.std.specs.Prelude.{◌≡◌, IfOk, OnOk};
ghost use Rattle.grasp_crew.specs.Nudges.{wanted_of};
ghost use Rattle.grasp_service_visits.specs.Serving.{want_count, with_want_at, without_want_at, want_answer, unwant_answer, wants_added, wants_dropped};

use crate::answer::Answer;
use grasp_cbor::OutOfMemory;
use grasp_control::PlainAnswer;
use grasp_crew::Servant;
use grasp_node_main::WantPlan;
use std::alloc::Global;

/// The most wants of a node.
const MOST_WANTS: u64 = 256;

/// How many wants the agent that manages prefixes has.
fn want_count(crew: &[Servant]) -> u64
    ensures { result ≡ want_count crew.now }
{
    match crew {
        [Servant::Steward(steward), ..] => steward.wants().len() as u64,
        _ => 0,
    }
}

/// Adds a want, where there is room for one more.
pub(crate) fn add_want(
    alloc: Global,
    crew: &mut [Servant],
    want: WantPlan,
) -> Result<Answer, OutOfMemory>
    ensures answer { IfOk result (λ a. a ≡ want_answer crew.old) }
    ensures crew { IfOk result (λ a. crew.new ≡ wants_added crew.old (wanted_of want)) }
{
    let count = want_count(crew);
    if count >= MOST_WANTS {
        return Ok(Answer::Plain(PlainAnswer::Full));
    }
    if !crew.is_empty() {
        add_to(alloc, &mut crew[0], want)?;
    }
    Ok(Answer::Plain(PlainAnswer::Taken { number: count + 1 }))
}

/// Takes the want of this number back.
pub(crate) fn drop_want(crew: &mut [Servant], number: u64) -> Answer
    ensures answer { result ≡ unwant_answer crew.old number }
    ensures crew { crew.new ≡ wants_dropped crew.old number }
{
    if number == 0 || number > want_count(crew) {
        return Answer::Plain(PlainAnswer::Nothing);
    }
    if !crew.is_empty() {
        drop_from(&mut crew[0], number - 1);
    }
    Answer::Plain(PlainAnswer::Done)
}

/// Adds a want to the agent that manages prefixes.
fn add_to(alloc: Global, servant: &mut Servant, want: WantPlan) -> Result<(), OutOfMemory>
    ensures { OnOk result (servant.new ≡ with_want_at servant.old (wanted_of want)) }
{
    match servant {
        Servant::Steward(steward) => steward.add(alloc, want),
        Servant::Herald(_) => Ok(()),
        Servant::Listener(_) => Ok(()),
    }
}

/// Takes the want at this place back from the agent that manages prefixes.
fn drop_from(servant: &mut Servant, place: u64)
    ensures { servant.new ≡ without_want_at servant.old place }
{
    match servant {
        Servant::Steward(steward) => steward.drop_want(place),
        Servant::Herald(_) => (),
        Servant::Listener(_) => (),
    }
}
