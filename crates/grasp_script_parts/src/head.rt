//! The header with which a text begins.

ghost use Rattle.std.specs.Prelude.{◌≡◌, ◌≤◌, List, ℕ, drop, length, IfOk};
ghost use Rattle.grasp_model_network.specs.declared.plan.WorldPlan.{WorldPlan};
ghost use Rattle.grasp_script.specs.Reads.{HeaderRead};
ghost use Rattle.grasp_script.specs.Scripts.{IfBadScript, IsBadLine};
ghost use Rattle.grasp_script_parts.specs.Heads.{IsBadHead};
ghost use Rattle.grasp_script_parts.specs.Starting.{IsHeadRefused};

use crate::split::starts_before;
use grasp_script::{Head, ScriptFault};
use std::alloc::Global;

/// The header with which a text begins: its plan, how many bytes it has, with their line ends, and how many lines.
///
/// `BadScript` comes exactly where the text begins with no header, with the number of the first line up to `start` that stands in none, or
/// the number after the last line where one is missing.
pub fn read_head(alloc: Global, text: &[u8]) -> Result<Head, ScriptFault>
    ensures read { IfOk result (λ head. HeaderRead text.now (drop head.used text.now) head.plan head.lines) }
    ensures within { IfOk result (λ head. head.used ≤ length text.now) }
    ensures only { (plan : WorldPlan) (rest : List ℕ) (number : ℕ) → HeaderRead text.now rest plan number
        → IfOk result (λ head. (head.plan ≡ plan) × (head.lines ≡ number)) }
    ensures bad { IfBadScript result (λ n. IsBadHead text.now n) }
{
    match grasp_script::read_head(alloc, text) {
        Ok(head) => Ok(head),
        Err(ScriptFault::BadScript { line }) => Err(head_fault(text, line)),
        Err(ScriptFault::OutOfMemory) => Err(ScriptFault::OutOfMemory),
    }
}

/// Why a text that begins with no header is refused. No header ends before its bad line: where one did, memory would be wanted.
fn head_fault(text: &[u8], line: u64) -> ScriptFault
    requires place { IsBadLine text.now line }
    ensures { IsHeadRefused text.now result }
{
    if starts_before(text, line) {
        return ScriptFault::OutOfMemory;
    }
    ScriptFault::BadScript { line }
}
