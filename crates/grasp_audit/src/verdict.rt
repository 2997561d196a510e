//! The audit of a text.

ghost use Rattle.std.specs.Prelude.{◌≡◌, IfOk, IfErr, drop};
ghost use Rattle.grasp_audit.specs.Headers.{EndsHeader, HasHeader};
ghost use Rattle.grasp_audit.specs.Rest.{TellsVerdict};
ghost use Rattle.grasp_model_audit.specs.Audits.{IsAudited};
ghost use Rattle.grasp_model_audit.specs.Verdicts.{IsAudit, IsFault};
ghost use Rattle.grasp_model_audit.specs.declared.verdict.AuditFault.TheVariants as faults;

use crate::headers::{HeaderEnd, header_end, read_plan};
use crate::lines::audit_rest;
use grasp_laws_audit::{audited_runs_are_safe, audits_agree};
use grasp_model_audit::{Audit, AuditFault};
use grasp_model_network::WorldPlan;
use std::alloc::Global;

/// Whether a text is the record of a run: how many nodes and lines it has, or the first of its lines that fails, and why.
///
/// The text is run in a network of its own plan. Nothing is taken from whoever wrote it but what its nodes took, and each answer is
/// compared with that of this network. For want of memory, which is an `Err`, nothing is said of the text.
pub fn audit(alloc: Global, text: &[u8]) -> Result<Audit, AuditFault>
    // The text is the record of a run, each of whose networks is safe.
    ensures ok { IfOk result (λ a. IsAudit text.now a) }
    // The first line that fails, and the first of its causes.
    ensures fault { IfErr result (λ f. IsFault text.now f) }
    // The record of a run is refused for want of memory alone.
    ensures only { IsAudited text.now → IfErr result (λ f. f ≡ faults.OutOfMemory) }
{
    audits_agree();
    let end = header_end(text);
    match read_plan(alloc, text, end) {
        Ok(plan) => audit_behind(alloc, text, end, plan),
        Err(fault) => Err(fault),
    }
}

/// The audit of a text whose header ends here and tells this plan.
fn audit_behind(
    alloc: Global,
    text: &[u8],
    end: HeaderEnd,
    plan: WorldPlan,
) -> Result<Audit, AuditFault>
    requires ends { EndsHeader text.now end }
    requires header { HasHeader text.now (drop end.bytes text.now) plan end.lines }
    ensures { TellsVerdict text.now result }
{
    audited_runs_are_safe();
    let nodes = plan.nodes;
    match audit_rest(alloc, plan, &text[end.bytes..], end.lines) {
        Ok(lines) => Ok(Audit { nodes, lines }),
        Err(fault) => Err(fault),
    }
}
