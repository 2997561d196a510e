//! Lines of scripts that are run.

ghost use Rattle.std.specs.Prelude.{◌≡◌, IfOk};
ghost use Rattle.grasp_doubts.specs.Stands.{IsDoubtAsked};
ghost use Rattle.grasp_model_script_doubts.specs.LineRuns.{doubt_told};
ghost use Rattle.grasp_script.specs.declared.line.LineAct.TheVariants as plain;
ghost use Rattle.grasp_script_doubts.specs.declared.line.DoubtLineAct.TheVariants as line_act;
ghost use Rattle.grasp_runner_doubts.specs.Lines.{CanRunDoubt, RunsDoubtAct, RunsDoubtLine, RunsDoubtLook, RunsStep, TellsDoubt};

use crate::placing::placed_event;
use grasp_cbor::{Chars, OutOfMemory};
use grasp_doubts::DoubtWorld;
use grasp_model_doubts::{DoubtEvent, DoubtReport};
use grasp_model_network::{Event, WorldStop};
use grasp_script::{LineAct, told_report, told_state};
use grasp_script_doubts::{DoubtLine, DoubtLineAct, told_ask};
use std::alloc::Global;

/// Runs a line in a network of doubters, and answers its report, without a line end.
///
/// With `TooMuch` the network is stopped. With `OutOfMemory` it is as it was before the line, it is stopped, or the line was run
/// and only its report is missing.
pub fn run_doubt_line(
    alloc: Global,
    world: &mut DoubtWorld,
    line: &DoubtLine,
) -> Result<Chars, WorldStop>
    requires { CanRunDoubt world.old line.now.act }
    ensures { RunsDoubtLine world.old world.new line.now result }
{
    match &line.act {
        DoubtLineAct::Plain(act) => run_plain(alloc, world, &line.text, act),
        DoubtLineAct::Doubter { node } => {
            run_step(
                alloc,
                world,
                &line.text,
                DoubtEvent::Doubter { node: *node },
            )
        }
        DoubtLineAct::Ask { node, prefix, peer } => run_step(
            alloc,
            world,
            &line.text,
            DoubtEvent::Ask {
                node: *node,
                prefix: *prefix,
                peer: *peer,
            },
        ),
    }
}

/// Runs what a line of any script is.
fn run_plain(
    alloc: Global,
    world: &mut DoubtWorld,
    text: &Chars,
    act: &LineAct,
) -> Result<Chars, WorldStop>
    requires { CanRunDoubt world.old (line_act.Plain act.now) }
    ensures { RunsDoubtAct world.old world.new text.now (line_act.Plain act.now) result }
{
    match act {
        LineAct::Event(event) => run_event(alloc, world, text, event),
        LineAct::State { node } => look(alloc, world, text, *node),
    }
}

/// An event of a line happens, with the place of the session that it names.
fn run_event(
    alloc: Global,
    world: &mut DoubtWorld,
    text: &Chars,
    event: &Event,
) -> Result<Chars, WorldStop>
    requires { CanRunDoubt world.old (line_act.Plain (plain.Event event.now)) }
    ensures { RunsDoubtAct world.old world.new text.now (line_act.Plain (plain.Event event.now)) result }
{
    match placed_event(world.world(), event) {
        Ok(placed) => run_step(alloc, world, text, DoubtEvent::Plain(placed)),
        Err(OutOfMemory) => Err(WorldStop::OutOfMemory),
    }
}

/// Something happens, and is reported.
fn run_step(
    alloc: Global,
    world: &mut DoubtWorld,
    text: &Chars,
    event: DoubtEvent,
) -> Result<Chars, WorldStop>
    requires { IsDoubtAsked world.old event }
    ensures { RunsStep world.old world.new text.now event result }
{
    match world.step(event) {
        Ok(report) => doubt_told(alloc, text, &report),
        Err(stop) => Err(stop),
    }
}

/// The report of what happened.
fn doubt_told(alloc: Global, text: &Chars, report: &DoubtReport) -> Result<Chars, WorldStop>
    ensures { TellsDoubt text.now report.now result }
{
    match told_of(alloc, text, report) {
        Ok(told) => Ok(told),
        Err(OutOfMemory) => Err(WorldStop::OutOfMemory),
    }
}

/// The report of an event, or of a question.
fn told_of(alloc: Global, text: &Chars, report: &DoubtReport) -> Result<Chars, OutOfMemory>
    ensures { IfOk result (λ told. told ≡ doubt_told text.now report.now) }
{
    match report {
        DoubtReport::Plain(report) => told_report(alloc, text, report),
        DoubtReport::Ask(asked) => told_ask(alloc, text, asked),
    }
}

/// What is told of a node.
fn look(alloc: Global, world: &DoubtWorld, text: &Chars, node: u8) -> Result<Chars, WorldStop>
    requires { CanRunDoubt world.now (line_act.Plain (plain.State node)) }
    ensures { RunsDoubtLook world.now text.now node result }
{
    match told_state(alloc, text, world.world().agent(node)) {
        Ok(told) => Ok(told),
        Err(OutOfMemory) => Err(WorldStop::OutOfMemory),
    }
}
