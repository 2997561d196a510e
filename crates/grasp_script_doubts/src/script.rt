//! Reading scripts of networks of doubters.

ghost use Rattle.std.specs.Prelude.{◌≡◌, List, length, slice_get, option_map, IfOk};
ghost use Rattle.grasp_model_network.specs.declared.plan.WorldPlan.{WorldPlan};
ghost use Rattle.grasp_script.specs.Scripts.{IfBadScript};
ghost use Rattle.grasp_script_doubts.specs.Scripts.{IsBadDoubtLine, IsDoubtScript, IsNoDoubtScript};
ghost use Rattle.grasp_script_doubts.specs.declared.line.DoubtLine.{DoubtLine};

use crate::line::{DoubtLine, DoubtLines};
use crate::lines::read_doubt_line;
use grasp_model_network::WorldPlan;
use grasp_script::ScriptFault;
use grasp_script_parts::{first_line, read_head};
use std::alloc::Global;

/// A script of a network of doubters: its plan, and what happens in it.
#[derive(Debug, Drop)]
pub struct DoubtScript {
    /// What its header tells.
    pub plan: WorldPlan,
    /// Its lines behind the header.
    pub lines: DoubtLines,
}

impl DoubtScript {
    /// The plan that its header tells.
    pub fn plan(&self) -> &WorldPlan
        ensures { result.now ≡ self.now.plan }
    {
        &self.plan
    }

    /// How many lines stand behind the header.
    pub fn len(&self) -> u64
        ensures { result ≡ length self.now.lines }
    {
        self.lines.len()
    }

    /// The line at this place behind the header, counted from 0, or `None` past the end.
    pub fn line(&self, i: u64) -> Option<&DoubtLine>
        ensures { option_map (λ x. x.now) result ≡ slice_get self.now.lines i }
    {
        self.lines.at(i)
    }
}

/// The script that a text is: the plan that its header tells, and its lines behind that, each with what it means.
///
/// A line ends in LF, the last one perhaps not. `BadScript` comes exactly where the text is no script.
pub fn parse_doubt_script(alloc: Global, text: &[u8]) -> Result<DoubtScript, ScriptFault>
    ensures found { IfOk result (λ s. IsDoubtScript text.now s.plan s.lines) }
    ensures only { (plan : WorldPlan) (lines : List DoubtLine) → IsDoubtScript text.now plan lines → IfOk result (λ s. (s.plan ≡ plan) × (s.lines ≡ lines)) }
    ensures none { IfBadScript result (λ n. IsNoDoubtScript text.now) }
    ensures place { IfBadScript result (λ n. IsBadDoubtLine text.now n) }
{
    let head = match read_head(alloc, text) {
        Ok(head) => head,
        Err(fault) => return Err(fault),
    };
    let mut rest = &text[head.used as usize..];
    let mut lines = DoubtLines::new(alloc);
    let mut number = head.lines;
    while let Some((line, behind)) = first_line(rest) {
        let meant = match read_doubt_line(alloc, line, head.plan.nodes)? {
            Some(meant) => meant,
            None => return Err(ScriptFault::BadScript { line: number + 1 }),
        };
        lines.push(meant)?;
        number += 1;
        rest = behind;
    }
    Ok(DoubtScript {
        plan: head.plan,
        lines,
    })
}
