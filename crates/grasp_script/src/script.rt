//! Reading scripts.

ghost use Rattle.std.specs.Prelude.{◌≡◌, ◌+◌, ◌<◌, ◌≤◌, List, length, drop, slice_get, option_map, OnOk, IfOk, IfSome, IfNone};
ghost use Rattle.grasp_model_network.specs.declared.plan.WorldPlan.{WorldPlan};
ghost use Rattle.grasp_script.specs.Headers.{plan_with};
ghost use Rattle.grasp_script.specs.Reads.{bare, IsSized, IsUnsized, SoFar, HeaderRead, IsBehind};
ghost use Rattle.grasp_script.specs.Scripts.{IsScript, IsNoScript, IsBadLine, IfBadScript};
ghost use Rattle.grasp_script.specs.declared.line.Line.{Line};

use crate::acts::read_line;
use crate::fault::ScriptFault;
use crate::fits::told_line;
use crate::header::HeaderLine;
use crate::line::{Line, Lines};
use crate::opening::{is_start, told_limit, told_nodes};
use crate::split::first_line;
use grasp_cbor::OutOfMemory;
use grasp_model_network::{MemberLists, RootList, WorldPlan};
use std::alloc::Global;

/// The most bytes of a message where no line tells them.
const USUAL_LIMIT: u32 = 2048;

/// A script of a network: its plan, and what happens in it.
#[derive(Debug, Drop)]
pub struct Script {
    /// What its header tells.
    pub plan: WorldPlan,
    /// Its lines behind the header.
    pub lines: Lines,
}

impl Script {
    /// The plan that its header tells.
    pub fn plan(&self) -> &WorldPlan
        ensures { result.now ≡ self.now.plan }
    {
        &self.plan
    }

    /// How many lines stand behind the header.
    pub fn len(&self) -> u64
        ensures { result ≡ length self.now.lines }
    {
        self.lines.len()
    }

    /// The line at this place behind the header, counted from 0, or `None` past the end.
    pub fn line(&self, i: u64) -> Option<&Line>
        ensures { option_map (λ x. x.now) result ≡ slice_get self.now.lines i }
    {
        self.lines.at(i)
    }
}

/// The header of a script, as it was read from a text.
#[derive(Debug, Drop)]
pub struct Head {
    /// The plan that it tells.
    pub plan: WorldPlan,
    /// How many bytes of the text it has.
    pub used: u64,
    /// How many lines it has.
    pub lines: u64,
}

/// The header with which a text begins, and where it ends.
///
/// `BadScript` comes exactly where no script has a header with which the text begins.
#[tactic(auto, using(crate::proofs::Splitting::used_is))]
pub fn read_head(alloc: Global, text: &[u8]) -> Result<Head, ScriptFault>
    ensures read { IfOk result (λ head. HeaderRead text.now (drop head.used text.now) head.plan head.lines) }
    ensures within { IfOk result (λ head. head.used ≤ length text.now) }
    ensures none { IfBadScript result (λ n. IsNoScript text.now) }
    ensures place { IfBadScript result (λ n. IsBadLine text.now n) }
{
    let (plan, lines, rest) = read_header(alloc, text)?;
    let used = (text.len() - rest.len()) as u64;
    Ok(Head { plan, used, lines })
}

/// The script that a text is: the plan that its header tells, and its lines behind that, each with what it means.
///
/// A line ends in LF, the last one perhaps not. `BadScript` comes exactly where the text is no script.
pub fn parse_script(alloc: Global, text: &[u8]) -> Result<Script, ScriptFault>
    ensures found { IfOk result (λ s. IsScript text.now s.plan s.lines) }
    ensures only { (plan : WorldPlan) (lines : List Line) → IsScript text.now plan lines → IfOk result (λ s. (s.plan ≡ plan) × (s.lines ≡ lines)) }
    ensures none { IfBadScript result (λ n. IsNoScript text.now) }
    ensures place { IfBadScript result (λ n. IsBadLine text.now n) }
{
    let (plan, header, mut rest) = read_header(alloc, text)?;
    let mut lines = Lines::new(alloc);
    let mut number = header;
    while let Some((line, behind)) = first_line(rest) {
        let meant = match read_line(alloc, line, plan.nodes)? {
            Some(meant) => meant,
            None => return Err(ScriptFault::BadScript { line: number + 1 }),
        };
        lines.push(meant)?;
        number += 1;
        rest = behind;
    }
    Ok(Script { plan, lines })
}

/// The plan that a text's header tells, how many lines the header has, and the text behind it.
fn read_header(alloc: Global, text: &[u8]) -> Result<(WorldPlan, u64, &[u8]), ScriptFault>
    ensures read { IfOk result (λ x. HeaderRead text.now x.2.now x.0 x.1) }
    ensures room { IfOk result (λ x. x.1 + length x.2.now ≤ length text.now) }
    ensures behind { IfOk result (λ x. IsBehind text.now x.2.now) }
    ensures none { IfBadScript result (λ n. IsNoScript text.now) }
    ensures place { IfBadScript result (λ n. IsBadLine text.now n) }
{
    let (mut plan, mut number, mut rest) = match read_opening(alloc, text) {
        Some(opening) => opening,
        None => return Err(ScriptFault::BadScript { line: 1 }),
    };
    while let Some((line, behind)) = first_line(rest) {
        if is_start(line) {
            return Ok((plan, number + 1, behind));
        }
        let told = match told_line(alloc, line, &plan)? {
            Some(told) => told,
            None => return Err(ScriptFault::BadScript { line: number + 1 }),
        };
        tell(&mut plan, told)?;
        number += 1;
        rest = behind;
    }
    Err(ScriptFault::BadScript { line: number + 1 })
}

/// The plan without roots and links that a text's first lines tell, how many they are, and the text behind them, or
/// `None` where the first line doesn't tell how many nodes there are.
fn read_opening(alloc: Global, text: &[u8]) -> Option<(WorldPlan, u64, &[u8])>
    ensures some { IfSome result (λ x. SoFar text.now x.2.now x.0 x.1) }
    ensures room { IfSome result (λ x. x.1 + length x.2.now ≤ length text.now) }
    ensures behind { IfSome result (λ x. IsBehind text.now x.2.now) }
    ensures none { IfNone result (IsNoScript text.now) }
    ensures place { IfNone result (IsBadLine text.now 1) }
{
    let (line, middle) = first_line(text)?;
    let nodes = told_nodes(line)?;
    match read_limit(middle) {
        Some((limit, rest)) => Some((bare_plan(alloc, nodes, limit), 2, rest)),
        None => Some((bare_plan(alloc, nodes, USUAL_LIMIT), 1, middle)),
    }
}

/// The most bytes of a message that a text's first line tells, and the text behind it, or `None` where it tells no such
/// number.
fn read_limit(text: &[u8]) -> Option<(u32, &[u8])>
    ensures some { IfSome result (λ x. IsSized text.now x.0 x.1.now) }
    ensures shorter { IfSome result (λ x. length x.1.now < length text.now) }
    ensures behind { IfSome result (λ x. IsBehind text.now x.1.now) }
    ensures none { IfNone result (IsUnsized text.now) }
{
    let (line, behind) = first_line(text)?;
    let limit = told_limit(line)?;
    Some((limit, behind))
}

/// A plan without roots and links.
fn bare_plan(alloc: Global, nodes: u8, limit: u32) -> WorldPlan
    ensures { result ≡ bare nodes limit }
{
    WorldPlan {
        nodes,
        limit,
        roots: RootList::new(alloc),
        links: MemberLists::new(alloc),
    }
}

/// Adds to a plan what a line of its header tells.
fn tell(plan: &mut WorldPlan, told: HeaderLine) -> Result<(), OutOfMemory>
    ensures { OnOk result (plan.new ≡ plan_with plan.old told) }
{
    match told {
        HeaderLine::Root(root) => plan.roots.push(root),
        HeaderLine::Link(members) => plan.links.push(members),
    }
}
