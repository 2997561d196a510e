//! The roots of a node of a plan.

ghost use Rattle.std.specs.Prelude.{◌≡◌, IfOk};
ghost use Rattle.grasp_model_network.specs.Setting.{script_roots};

use grasp_cbor::OutOfMemory;
use grasp_model_network::WorldPlan;
use grasp_pool::RootPrefix;
use std::alloc::Global;

/// The prefixes that the node holds from the beginning.
pub(crate) fn roots_of(
    alloc: Global,
    plan: &WorldPlan,
    node: u8,
) -> Result<Vec<RootPrefix>, OutOfMemory>
    ensures { IfOk result (λ roots. roots.items ≡ script_roots plan.now.roots node) }
{
    Ok(
        plan.roots
            .slice()
            .iter()
            .filter(|root| root.node == node)
            .map(|root| root.root)
            .collect(alloc)?,
    )
}
