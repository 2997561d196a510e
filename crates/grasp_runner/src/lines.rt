//! Lines of scripts that are run.

ghost use Rattle.std.specs.Prelude.{◌≡◌, IfErr};
ghost use Rattle.grasp_script.specs.declared.line.LineAct.TheVariants as act;
ghost use Rattle.grasp_runner.specs.Lines.{CanRunLine, RunsLine, RunsLook, TellsEvent};

use crate::events::run_event;
use grasp_cbor::{Chars, OutOfMemory};
use grasp_model_network::{Report, WorldStop};
use grasp_script::{Line, LineAct, told_report, told_state};
use grasp_simulator::World;
use std::alloc::Global;

/// Runs a line in a network, and answers its report, without a line end.
///
/// With `TooMuch` the network is stopped. With `OutOfMemory` it is as it was before the line, it is stopped, or the line was run
/// and only its report is missing. A stopped network stays so.
pub fn run_line(alloc: Global, world: &mut World, line: &Line) -> Result<Chars, WorldStop>
    requires { CanRunLine world.old line.now.act }
    ensures { RunsLine world.old world.new line.now result }
{
    match &line.act {
        LineAct::Event(event) => match run_event(world, event) {
            Ok(report) => event_told(alloc, &line.text, &report),
            Err(stop) => Err(stop),
        },
        LineAct::State { node } => look(alloc, world, &line.text, *node),
    }
}

/// The report of an event.
fn event_told(alloc: Global, text: &Chars, report: &Report) -> Result<Chars, WorldStop>
    ensures { TellsEvent text.now report.now result }
{
    match told_report(alloc, text, report) {
        Ok(told) => Ok(told),
        Err(OutOfMemory) => Err(WorldStop::OutOfMemory),
    }
}

/// What is told of a node.
fn look(alloc: Global, world: &World, text: &Chars, node: u8) -> Result<Chars, WorldStop>
    requires { CanRunLine world.now (act.State node) }
    ensures shows { RunsLook world.now text.now node result }
    ensures memory { IfErr result (λ why. why ≡ WorldStop.OutOfMemory) }
{
    match told_state(alloc, text, world.agent(node)) {
        Ok(told) => Ok(told),
        Err(OutOfMemory) => Err(WorldStop::OutOfMemory),
    }
}
