//! Events of lines, with the places of the sessions that they name.

ghost use Rattle.std.specs.Prelude.{◌≡◌, IfOk};
ghost use Rattle.grasp_model_network.specs.Setting.{Setting};
ghost use Rattle.grasp_model_network.specs.World.{Seat, WorldState, present_life};
ghost use Rattle.grasp_model_script.specs.LineRuns.{placed_handle, placed_call, placed_event};
ghost use Rattle.grasp_script.specs.declared.line.LineAct.TheVariants as act;
ghost use Rattle.grasp_runner.specs.Lines.{CanRun, MeetsLine};
ghost use Rattle.grasp_simulator.specs.WorldStands.{HasNode, IsSeat};

use grasp_cbor::OutOfMemory;
use grasp_model_network::Event;
use grasp_simulator::World;
use grasp_types::{Call, Handle, Plain};

/// The handle with the place that was given with its number in the node's present life.
fn placed_handle(world: &World, node: u8, handle: Handle) -> Handle
    requires { HasNode world.now node }
    ensures { (s : Setting) (w : WorldState) (seat : Seat) → IsSeat world.now node s w seat → result ≡ placed_handle w (present_life w node) handle }
{
    Handle {
        place: world.place(node, handle.number),
        number: handle.number,
    }
}

/// The call with the place of the session that it names.
fn placed_call(world: &World, node: u8, call: &Call) -> Result<Call, OutOfMemory>
    requires { HasNode world.now node }
    ensures { IfOk result (λ placed. (s : Setting) (w : WorldState) (seat : Seat) → IsSeat world.now node s w seat
        → placed ≡ placed_call w (present_life w node) call.now) }
{
    match call {
        Call::NegotiateStep { handle, value } => Ok(Call::NegotiateStep {
            handle: placed_handle(world, node, *handle),
            value: value.copy()?,
        }),
        Call::NegotiateWait { handle, millis } => Ok(Call::NegotiateWait {
            handle: placed_handle(world, node, *handle),
            millis: *millis,
        }),
        Call::EndNegotiate { handle, verdict } => Ok(Call::EndNegotiate {
            handle: placed_handle(world, node, *handle),
            verdict: verdict.copy()?,
        }),
        Call::SendInvalid { handle, detail } => Ok(Call::SendInvalid {
            handle: placed_handle(world, node, *handle),
            detail: detail.copy()?,
        }),
        Call::Poll { handle } => Ok(Call::Poll {
            handle: placed_handle(world, node, *handle),
        }),
        _ => call.copy(),
    }
}

/// The event with the place of the session that its call names.
pub(crate) fn placed_event(world: &World, event: &Event) -> Result<Event, OutOfMemory>
    requires { CanRun world.now (act.Event event.now) }
    ensures { IfOk result (λ placed. (s : Setting) (w : WorldState) → MeetsLine world.now s w (act.Event event.now)
        → placed ≡ placed_event w event.now) }
{
    match event {
        Event::Api {
            node,
            asa,
            call,
            hold,
        } => Ok(Event::Api {
            node: *node,
            asa: *asa,
            call: placed_call(world, *node, call)?,
            hold: *hold,
        }),
        _ => event.copy(),
    }
}
