//! Lines of scripts that are run.

ghost use Rattle.std.specs.Prelude.{◌≡◌, ◌≤◌, ◌<◌, ◌+◌, ◌^◌};
ghost use Rattle.grasp_kept.specs.Stands.{steps_of};
ghost use Rattle.grasp_model_kept.specs.declared.report.KeptReport.TheVariants as report;
ghost use Rattle.grasp_runner.specs.Lines.{TellsEvent};
ghost use Rattle.grasp_runner_kept.specs.Lines.{CanRunKept, IsCrashReport, RunsCrash, RunsKeptLine, RunsKeptLook, TellsCrash};
ghost use Rattle.grasp_script_kept.specs.declared.line.KeptLine.TheVariants as kept_line;
ghost use Rattle.grasp_script.specs.declared.line.LineAct.TheVariants as act;

use crate::events::run_event;
use grasp_cbor::{Chars, OutOfMemory};
use grasp_disk::Left;
use grasp_kept::KeptWorld;
use grasp_model_kept::{KeptEvent, KeptReport};
use grasp_model_network::{Report, WorldStop};
use grasp_pool::PoolImage;
use grasp_script::{Line, LineAct, told_report, told_state};
use grasp_script_kept::{KeptLine, told_restart};
use std::alloc::Global;

/// Runs a line in a network whose nodes crash, and answers its report, without a line end.
///
/// With `TooMuch` the network is stopped. With `OutOfMemory` it is as it was before the line, it is stopped, or the line was run
/// and only its report is missing.
pub fn run_kept_line(
    alloc: Global,
    world: &mut KeptWorld,
    line: &KeptLine,
) -> Result<Chars, WorldStop>
    requires run { CanRunKept world.old line.now }
    requires few { steps_of world.old < 2 ^ 32 }
    ensures runs { RunsKeptLine world.old world.new line.now result }
    ensures counts { steps_of world.new ≤ steps_of world.old + 1 }
{
    match line {
        KeptLine::Plain(line) => run_plain(alloc, world, line),
        KeptLine::Crash {
            text,
            node,
            calls,
            left,
        } => match run_crash(world, text, *node, *calls, *left) {
            Ok(image) => crash_told(alloc, text, &image),
            Err(stop) => Err(stop),
        },
    }
}

/// Runs a line of any script.
fn run_plain(alloc: Global, world: &mut KeptWorld, line: &Line) -> Result<Chars, WorldStop>
    requires run { CanRunKept world.old (kept_line.Plain line.now) }
    requires few { steps_of world.old < 2 ^ 32 }
    ensures runs { RunsKeptLine world.old world.new (kept_line.Plain line.now) result }
    ensures counts { steps_of world.new ≤ steps_of world.old + 1 }
{
    match &line.act {
        LineAct::Event(event) => match run_event(world, line, event) {
            Ok(report) => event_told(alloc, &line.text, &report),
            Err(stop) => Err(stop),
        },
        LineAct::State { node } => look(alloc, world, &line.text, *node),
    }
}

/// A node crashes, and begins anew with this image.
fn run_crash(
    world: &mut KeptWorld,
    text: &Chars,
    node: u8,
    calls: u64,
    left: Left,
) -> Result<PoolImage, WorldStop>
    requires run { CanRunKept world.old (kept_line.Crash text.now node calls left) }
    requires few { steps_of world.old < 2 ^ 32 }
    ensures runs { RunsCrash world.old world.new text.now node calls left result }
    ensures counts { steps_of world.new ≤ steps_of world.old + 1 }
{
    match world.step(KeptEvent::Crash { node, calls, left }) {
        Ok(told) => Ok(image_of(told)),
        Err(stop) => Err(stop),
    }
}

/// The image of which a crash reports.
fn image_of(told: KeptReport) -> PoolImage
    requires { IsCrashReport told }
    ensures { told ≡ report.Restarted result }
{
    match told {
        KeptReport::Restarted(image) => image,
        KeptReport::Plain(_) => unreachable!(),
    }
}

/// The report of an event.
fn event_told(alloc: Global, text: &Chars, report: &Report) -> Result<Chars, WorldStop>
    ensures { TellsEvent text.now report.now result }
{
    match told_report(alloc, text, report) {
        Ok(told) => Ok(told),
        Err(OutOfMemory) => Err(WorldStop::OutOfMemory),
    }
}

/// The report of a crash.
fn crash_told(alloc: Global, text: &Chars, image: &PoolImage) -> Result<Chars, WorldStop>
    ensures { TellsCrash text.now image.now result }
{
    match told_restart(alloc, text, image) {
        Ok(told) => Ok(told),
        Err(OutOfMemory) => Err(WorldStop::OutOfMemory),
    }
}

/// What is told of a node.
fn look(alloc: Global, world: &KeptWorld, text: &Chars, node: u8) -> Result<Chars, WorldStop>
    requires { CanRunKept world.now (kept_line.Plain (record { text = text.now; act = act.State node })) }
    ensures { RunsKeptLook world.now text.now node result }
{
    match told_state(alloc, text, world.world().agent(node)) {
        Ok(told) => Ok(told),
        Err(OutOfMemory) => Err(WorldStop::OutOfMemory),
    }
}
