//! Reading scripts of networks whose nodes crash.

ghost use Rattle.std.specs.Prelude.{◌≡◌, List, length, slice_get, option_map, IfOk};
ghost use Rattle.grasp_model_network.specs.declared.plan.WorldPlan.{WorldPlan};
ghost use Rattle.grasp_script.specs.Scripts.{IfBadScript, IsBadLine, IsNoScript};
ghost use Rattle.grasp_script.specs.declared.fault.ScriptFault.TheVariants as fault;
ghost use Rattle.grasp_script_kept.specs.Scripts.{IsBadKeptLine, IsKeptScript, IsNoKeptScript};
ghost use Rattle.grasp_script_kept.specs.Refusals.{IsRefused};
ghost use Rattle.grasp_script_kept.specs.declared.line.KeptLine.{KeptLine};

use crate::crash::read_kept_line;
use crate::line::{KeptLine, KeptLines};
use crate::split::{first_line, starts_before};
use grasp_model_network::WorldPlan;
use grasp_script::{ScriptFault, read_head};
use std::alloc::Global;

/// A script of a network whose nodes crash: its plan, and what happens in it.
#[derive(Debug, Drop)]
pub struct KeptScript {
    /// What its header tells.
    pub plan: WorldPlan,
    /// Its lines behind the header.
    pub lines: KeptLines,
}

impl KeptScript {
    /// The plan that its header tells.
    pub fn plan(&self) -> &WorldPlan
        ensures { result.now ≡ self.now.plan }
    {
        &self.plan
    }

    /// How many lines stand behind the header.
    pub fn len(&self) -> u64
        ensures { result ≡ length self.now.lines }
    {
        self.lines.len()
    }

    /// The line at this place behind the header, counted from 0, or `None` past the end.
    pub fn line(&self, i: u64) -> Option<&KeptLine>
        ensures { option_map (λ x. x.now) result ≡ slice_get self.now.lines i }
    {
        self.lines.at(i)
    }
}

/// The script that a text is: the plan that its header tells, and its lines behind that, each with what it means.
///
/// A line ends in LF, the last one perhaps not. `BadScript` comes exactly where the text is no script.
pub fn parse_kept_script(alloc: Global, text: &[u8]) -> Result<KeptScript, ScriptFault>
    ensures found { IfOk result (λ s. IsKeptScript text.now s.plan s.lines) }
    ensures only { (plan : WorldPlan) (lines : List KeptLine) → IsKeptScript text.now plan lines → IfOk result (λ s. (s.plan ≡ plan) × (s.lines ≡ lines)) }
    ensures none { IfBadScript result (λ n. IsNoKeptScript text.now) }
    ensures place { IfBadScript result (λ n. IsBadKeptLine text.now n) }
{
    let head = match read_head(alloc, text) {
        Ok(head) => head,
        Err(ScriptFault::BadScript { line }) => return Err(header_fault(text, line)),
        Err(ScriptFault::OutOfMemory) => return Err(ScriptFault::OutOfMemory),
    };
    let mut rest = &text[head.used as usize..];
    let mut lines = KeptLines::new(alloc);
    let mut number = head.lines;
    while let Some((line, behind)) = first_line(rest) {
        let meant = match read_kept_line(alloc, line, head.plan.nodes)? {
            Some(meant) => meant,
            None => return Err(ScriptFault::BadScript { line: number + 1 }),
        };
        lines.push(meant)?;
        number += 1;
        rest = behind;
    }
    Ok(KeptScript {
        plan: head.plan,
        lines,
    })
}

/// Why a text without the header of a script is refused. No header ends before its bad line: where one did, memory would be wanted.
fn header_fault(text: &[u8], line: u64) -> ScriptFault
    requires none { IsNoScript text.now }
    requires place { IsBadLine text.now line }
    ensures { IsRefused text.now result }
{
    if starts_before(text, line) {
        return ScriptFault::OutOfMemory;
    }
    ScriptFault::BadScript { line }
}
