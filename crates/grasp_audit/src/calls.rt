//! The session that a call names.

ghost use Rattle.std.specs.Prelude.{◌≡◌, IfOk};
ghost use Rattle.grasp_model_network.specs.Setting.{Setting};
ghost use Rattle.grasp_model_network.specs.World.{Seat, WorldState, present_life};
ghost use Rattle.grasp_model_script.specs.LineRuns.{placed_call, placed_handle};
ghost use Rattle.grasp_simulator.specs.WorldStands.{HasNode, IsSeat};

use grasp_cbor::OutOfMemory;
use grasp_simulator::World;
use grasp_types::{Call, Handle, Plain};

/// The handle with the place that was given with its number.
fn placed_handle(world: &World, node: u8, handle: Handle) -> Handle
    requires { HasNode world.now node }
    ensures { (s : Setting) (w : WorldState) (seat : Seat) → IsSeat world.now node s w seat → result ≡ placed_handle w (present_life w node) handle }
{
    Handle {
        place: world.place(node, handle.number),
        number: handle.number,
    }
}

/// The call with the place of the session that it names.
pub(crate) fn placed_call(world: &World, node: u8, call: &Call) -> Result<Call, OutOfMemory>
    requires { HasNode world.now node }
    ensures { IfOk result (λ placed. (s : Setting) (w : WorldState) (seat : Seat) → IsSeat world.now node s w seat
        → placed ≡ placed_call w (present_life w node) call.now) }
{
    match call {
        Call::NegotiateStep { handle, value } => Ok(Call::NegotiateStep {
            handle: placed_handle(world, node, *handle),
            value: value.copy()?,
        }),
        Call::NegotiateWait { handle, millis } => Ok(Call::NegotiateWait {
            handle: placed_handle(world, node, *handle),
            millis: *millis,
        }),
        Call::EndNegotiate { handle, verdict } => Ok(Call::EndNegotiate {
            handle: placed_handle(world, node, *handle),
            verdict: verdict.copy()?,
        }),
        Call::SendInvalid { handle, detail } => Ok(Call::SendInvalid {
            handle: placed_handle(world, node, *handle),
            detail: detail.copy()?,
        }),
        Call::Poll { handle } => Ok(Call::Poll {
            handle: placed_handle(world, node, *handle),
        }),
        _ => call.copy(),
    }
}
