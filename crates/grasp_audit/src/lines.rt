//! The audit of lines, one after the other.

ghost use Rattle.std.specs.Prelude.{◌≡◌, ◌+◌, ◌<◌, ◌^◌, length};
ghost use Rattle.grasp_audit.specs.Rest.{AuditsLines, AuditsRest};
ghost use Rattle.grasp_audit.specs.Standing.{GoesOn};
ghost use Rattle.grasp_model_network.specs.Plans.{IsGoodPlan};

use crate::fault::fault_at;
use crate::line::audit_line;
use crate::split::split_line;
use grasp_cbor::OutOfMemory;
use grasp_model_audit::AuditFault;
use grasp_model_network::WorldPlan;
use grasp_simulator::World;
use std::alloc::Global;

/// The lines behind a header are audited in a network of the header's plan. The answer is the number of the last one.
pub(crate) fn audit_rest(
    alloc: Global,
    plan: WorldPlan,
    rest: &[u8],
    number: u64,
) -> Result<u64, AuditFault>
    requires good { IsGoodPlan plan }
    requires room { number + length rest.now < 2 ^ 64 }
    ensures { AuditsRest plan rest.now number result }
{
    let nodes = plan.nodes;
    match World::open(alloc, plan) {
        Ok(mut world) => audit_lines(alloc, &mut world, rest, number, nodes),
        Err(OutOfMemory) => Err(AuditFault::OutOfMemory),
    }
}

/// The lines of a text are audited, the first of them as the one behind that of this number. The answer is the number of the last one.
fn audit_lines(
    alloc: Global,
    world: &mut World,
    text: &[u8],
    number: u64,
    nodes: u8,
) -> Result<u64, AuditFault>
    requires goes { GoesOn world.old nodes }
    requires room { number + length text.now < 2 ^ 64 }
    ensures { AuditsLines world.old nodes text.now number result }
{
    let mut rest = text;
    let mut last = number;
    while !rest.is_empty() {
        let (line, behind) = split_line(rest);
        last += 1;
        match audit_line(alloc, world, line, nodes) {
            Ok(()) => rest = behind,
            Err(fault) => return Err(fault_at(fault, last)),
        }
    }
    Ok(last)
}
