//! Whether a node answers as a line says.

ghost use Rattle.grasp_audit.specs.Lines.{AnswersEvent};
ghost use Rattle.grasp_audit.specs.Standing.{MayAnswer};
ghost use Rattle.grasp_audit.specs.Told.{IsNoDrain, IsWritten};
ghost use Rattle.grasp_model_network.specs.declared.event.Event.TheVariants as event;

use crate::drains::gives_so;
use crate::fault::{LineFault, stop_fault, told_or_starved};
use crate::told::tells_report;
use grasp_model_network::Event;
use grasp_record::RecordLine;
use grasp_simulator::World;
use std::alloc::Global;

/// The event that a line names happens. The answer is whether it is answered as the line says. After an `Err` nothing is said of the
/// network.
pub(crate) fn has_answered(
    alloc: Global,
    world: &mut World,
    text: &[u8],
    line: &RecordLine,
    event: Event,
) -> Result<bool, LineFault>
    requires may_answer { MayAnswer world.old event }
    requires written { IsWritten text.now line.now }
    ensures { AnswersEvent world.old world.new line.entry.now event result }
{
    match event {
        Event::Drain { node, max } => drains_so(alloc, world, text, line, node, max),
        _ => steps_so(alloc, world, text, line, event),
    }
}

/// A drain happens. The answer is whether it gives what the line says.
fn drains_so(
    alloc: Global,
    world: &mut World,
    text: &[u8],
    line: &RecordLine,
    node: u8,
    max: u32,
) -> Result<bool, LineFault>
    requires may_answer { MayAnswer world.old (event.Drain node max) }
    requires written { IsWritten text.now line.now }
    ensures { AnswersEvent world.old world.new line.entry.now (event.Drain node max) result }
{
    match world.drain(node, max) {
        Ok(outputs) => told_or_starved(gives_so(alloc, text, outputs)),
        Err(stop) => Err(stop_fault(stop)),
    }
}

/// An event that isn't a drain happens. The answer is whether its report is what the line says.
fn steps_so(
    alloc: Global,
    world: &mut World,
    text: &[u8],
    line: &RecordLine,
    event: Event,
) -> Result<bool, LineFault>
    requires may_answer { MayAnswer world.old event }
    requires other { IsNoDrain event }
    requires written { IsWritten text.now line.now }
    ensures { AnswersEvent world.old world.new line.entry.now event result }
{
    match world.step(event) {
        Ok(report) => told_or_starved(tells_report(alloc, text, &report)),
        Err(stop) => Err(stop_fault(stop)),
    }
}
