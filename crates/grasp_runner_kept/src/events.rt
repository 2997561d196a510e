//! Events of lines that happen.

ghost use Rattle.grasp_kept.specs.Stands.{steps_of};
ghost use Rattle.grasp_model_kept.specs.declared.report.KeptReport.TheVariants as report;
ghost use Rattle.grasp_runner_kept.specs.Lines.{CanRunKept, IsPlainReport, RunsPlain, event_line};
ghost use Rattle.std.specs.Prelude.{◌≡◌, ◌≤◌, ◌<◌, ◌+◌, ◌^◌};

use crate::placing::placed_event;
use grasp_cbor::OutOfMemory;
use grasp_kept::KeptWorld;
use grasp_model_kept::{KeptEvent, KeptReport};
use grasp_model_network::{Event, Report, WorldStop};
use grasp_script::Line;

/// An event of a line happens. After `OutOfMemory` the network is as it was, or it is stopped.
pub(crate) fn run_event(
    world: &mut KeptWorld,
    line: &Line,
    event: &Event,
) -> Result<Report, WorldStop>
    requires run { CanRunKept world.old (event_line line.now.text event.now) }
    requires few { steps_of world.old < 2 ^ 32 }
    ensures runs { RunsPlain world.old world.new line.now.text event.now result }
    ensures counts { steps_of world.new ≤ steps_of world.old + 1 }
{
    match placed_event(world.world(), event) {
        Ok(placed) => match world.step(KeptEvent::Plain(placed)) {
            Ok(told) => Ok(plain_of(told)),
            Err(stop) => Err(stop),
        },
        Err(OutOfMemory) => Err(WorldStop::OutOfMemory),
    }
}

/// The report of an event that is no crash.
fn plain_of(told: KeptReport) -> Report
    requires { IsPlainReport told }
    ensures { told ≡ report.Plain result }
{
    match told {
        KeptReport::Plain(report) => report,
        KeptReport::Restarted(_) => unreachable!(),
    }
}
