//! How agents come by their passes, and give them back.

ghost use Rattle.std.specs.Prelude.{◌+◌, ◌<◌, length};
ghost use Rattle.grasp_shared.specs.Handles.{IsRootOf, out_of};
ghost use Rattle.grasp_node_main.specs.Sharing.{HasPass, AllHavePasses, SplitsOne, Splits, JoinsOne, Joins};

use crate::seated_agent::SeatedAgent;
use grasp_shared::{Root, Shared};

/// Gives each agent a pass of its own, in order.
pub(crate) fn split_all(shared: &Shared, root: &mut Root, seats: &mut [SeatedAgent])
    requires own { IsRootOf shared.now root.old }
    requires few { out_of root.old + length seats.old < 4294967294 }
    ensures { Splits (length seats.old) shared.now root.old seats.old root.new seats.new }
{
    for seat in seats.iter_mut() {
        split_one(shared, root, seat);
    }
}

/// Gives an agent a pass.
fn split_one(shared: &Shared, root: &mut Root, seat: &mut SeatedAgent)
    requires own { IsRootOf shared.now root.old }
    requires few { out_of root.old < 4294967294 }
    ensures { SplitsOne shared.now root.old seat.old root.new seat.new }
{
    seat.pass = Some(shared.split(root));
}

/// Takes the agents' passes back, in order.
pub(crate) fn join_all(shared: &Shared, root: &mut Root, seats: &mut [SeatedAgent])
    requires own { IsRootOf shared.now root.old }
    requires passes { AllHavePasses shared.now seats.old }
    ensures { Joins (length seats.old) shared.now root.old seats.old root.new seats.new }
{
    for seat in seats.iter_mut() {
        join_one(shared, root, seat);
    }
}

/// Takes an agent's pass back.
fn join_one(shared: &Shared, root: &mut Root, seat: &mut SeatedAgent)
    requires own { IsRootOf shared.now root.old }
    requires pass { HasPass shared.now seat.old }
    ensures { JoinsOne shared.now root.old seat.old root.new seat.new }
{
    match seat.pass.take() {
        Some(pass) => shared.join(root, pass),
        None => unreachable!(),
    }
}
