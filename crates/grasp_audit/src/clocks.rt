//! The clock before a line.

ghost use Rattle.std.specs.Prelude.{◌≡◌, Ok};
ghost use Rattle.grasp_audit.specs.Lines.{TurnsClock};
ghost use Rattle.grasp_audit.specs.Standing.{HasLine};

use crate::fault::{LineFault, stop_fault};
use grasp_model_network::{Event, Report};
use grasp_record::RecordLine;
use grasp_simulator::World;

/// The node's clock shows the line's reading, where that is later than the node's own.
pub(crate) fn turn_clock(world: &mut World, line: &RecordLine) -> Result<(), LineFault>
    requires { HasLine world.old line.now }
    ensures { TurnsClock world.old world.new line.entry.now result }
{
    let own = world.node(line.node).now();
    if own < line.now {
        let event = Event::Clock {
            node: line.node,
            millis: line.now,
        };
        match world.step(event) {
            Ok(report) => turned(report),
            Err(stop) => Err(stop_fault(stop)),
        }
    } else {
        Ok(())
    }
}

/// What the clock came to is of no matter.
fn turned(_report: Report) -> Result<(), LineFault>
    ensures { result ≡ Ok tt }
{
    Ok(())
}
