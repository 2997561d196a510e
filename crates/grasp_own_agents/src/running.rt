//! A node that runs with its agents.

ghost use Rattle.std.specs.Prelude.{◌≡◌, ◌≢◌, MatchResult, IsTrue, true, false};
ghost use Rattle.grasp_io.specs.Faults.{Rose};
ghost use Rattle.grasp_node_main.specs.Program.{NothingPassed};
ghost use Rattle.grasp_node_main.specs.Tells.{links_told, told};
ghost use Rattle.grasp_own_agents.specs.Running.{Opened, OpensLinks, Went, RanOpen, Ran};
ghost use Rattle.grasp_service_visits.specs.Calling.{GoesSome};

use crate::acting::act_all;
use crate::exchange::{drain_last, exchange};
use crate::running_end::RunningEnd;
use grasp_agent::Agent;
use grasp_cbor::OutOfMemory;
use grasp_core::NodeCore;
use grasp_io::{Clock, LinkPlan, Links};

/// Runs a node with its agents, and says how it ended.
///
/// First each agent makes so many opening calls, by which it registers itself and its objectives before anybody can ask for them. Then
/// the links are opened, and the node makes so many turns. In a turn the links are asked once, for at most so many milliseconds, the
/// node is given what came and drained, and each agent makes its next call. At the end the node is drained once more.
///
/// The agents are the callers 1, 2 and so on of the node's history, and the loop is caller 0. An agent that isn't registered yet has
/// the number 0, so that its calls but the first are refused. Where there is no memory for an agent's next call the run ends at once.
/// Where the links can't be opened nothing passed over them, and the clock wasn't read.
#[tactic(auto, using(crate::proofs::Turns::running))]
pub fn run_agents<L: Links, C: Clock, A: Agent>(
    core: &mut NodeCore,
    agents: &mut [A],
    opening: u32,
    joining: &LinkPlan,
    turns: u32,
    wait: u32,
    links: &mut L,
    clock: &mut C,
) -> RunningEnd
    ensures done { result ≡ RunningEnd.Done → Ran A.Agent opening turns wait joining.now core.old agents.old
        (told (C.readings clock.old) (links_told L.Links links.old)) core.new agents.new
        (told (C.readings clock.new) (links_told L.Links links.new)) }
    ensures short { result ≢ RunningEnd.Done → GoesSome core.old core.new }
    ensures link_fault { result ≡ RunningEnd.LinkFault → Rose (L.faults links.old) (L.faults links.new) }
    ensures nothing_passed { result ≡ RunningEnd.LinkFault → NothingPassed (links_told L.Links links.old) (links_told L.Links links.new) }
    ensures clock_unread { result ≡ RunningEnd.LinkFault → clock.new ≡ clock.old }
{
    match open(core, agents, opening) {
        Ok(()) => run_open(core, agents, joining, turns, wait, links, clock),
        Err(OutOfMemory) => RunningEnd::OutOfMemory,
    }
}

/// Opens the links, and runs the node whose agents made their opening calls.
#[tactic(auto, using(crate::proofs::Turns::running_open))]
fn run_open<L: Links, C: Clock, A: Agent>(
    core: &mut NodeCore,
    agents: &mut [A],
    joining: &LinkPlan,
    turns: u32,
    wait: u32,
    links: &mut L,
    clock: &mut C,
) -> RunningEnd
    ensures done { result ≡ RunningEnd.Done → RanOpen A.Agent turns wait joining.now core.old agents.old
        (told (C.readings clock.old) (links_told L.Links links.old)) core.new agents.new
        (told (C.readings clock.new) (links_told L.Links links.new)) }
    ensures short { result ≢ RunningEnd.Done → GoesSome core.old core.new }
    ensures link_fault { result ≡ RunningEnd.LinkFault → Rose (L.faults links.old) (L.faults links.new) }
    ensures nothing_passed { result ≡ RunningEnd.LinkFault → NothingPassed (links_told L.Links links.old) (links_told L.Links links.new) }
    ensures clock_unread { result ≡ RunningEnd.LinkFault → clock.new ≡ clock.old }
{
    if !open_links(links, joining) {
        return RunningEnd::LinkFault;
    }
    match rounds(core, agents, turns, wait, links, clock) {
        Ok(now) => {
            drain_last(core, now, links);
            RunningEnd::Done
        }
        Err(OutOfMemory) => RunningEnd::OutOfMemory,
    }
}

/// Whether the links could be opened with this plan.
fn open_links<L: Links>(links: &mut L, plan: &LinkPlan) -> bool
    ensures opens { result ≡ true → OpensLinks plan.now (links_told L.Links links.old) (links_told L.Links links.new) }
    ensures fault { result ≡ false → Rose (L.faults links.old) (L.faults links.new) }
    ensures nothing_passed { result ≡ false → NothingPassed (links_told L.Links links.old) (links_told L.Links links.new) }
{
    links.open(plan).is_ok()
}

/// So many opening calls of each agent.
#[tactic(auto, using(crate::proofs::Turns::opened_none, crate::proofs::Turns::opened_some))]
fn open<A: Agent>(core: &mut NodeCore, agents: &mut [A], count: u32) -> Result<(), OutOfMemory>
    ensures { MatchResult result (λ _. Opened A.Agent count core.old agents.old core.new agents.new) (λ _. GoesSome core.old core.new) }
{
    for i in 0..count {
        act_all(core, agents)?;
    }
    Ok(())
}

/// So many turns. The answer is the last reading of the clock, in milliseconds, or 0 where there is none.
#[tactic(auto, using(crate::proofs::Turns::went_none))]
fn rounds<L: Links, C: Clock, A: Agent>(
    core: &mut NodeCore,
    agents: &mut [A],
    turns: u32,
    wait: u32,
    links: &mut L,
    clock: &mut C,
) -> Result<u64, OutOfMemory>
    ensures { MatchResult result
        (λ now. Went A.Agent turns wait core.old agents.old (told (C.readings clock.old) (links_told L.Links links.old)) now
        core.new agents.new (told (C.readings clock.new) (links_told L.Links links.new)))
        (λ _. GoesSome core.old core.new) }
{
    let mut now = 0;
    for i in 0..turns {
        now = exchange(core, wait, links, clock);
        act_all(core, agents)?;
    }
    Ok(now)
}
