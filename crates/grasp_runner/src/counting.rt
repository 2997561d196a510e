//! Running the lines of a script without writing their reports.

ghost use Rattle.std.specs.Prelude.{◌≡◌};
ghost use Rattle.grasp_runner.specs.Lines.{CanRunLine};
ghost use Rattle.grasp_runner.specs.Passing.{IsReady};
ghost use Rattle.grasp_runner.specs.Tallies.{CanCount, CountsAct, CountsLines};

use crate::events::run_event;
use crate::fault::{RunFault, stop_fault};
use crate::tally::Tally;
use grasp_script::{Line, LineAct, Script};
use grasp_simulator::World;

/// Runs the lines of the script, and counts what is reported of their events.
pub(crate) fn count_lines(world: &mut World, script: &Script) -> Result<Tally, RunFault>
    requires { IsReady world.old script.now }
    ensures { CountsLines script.now.plan script.now.lines world.new result }
{
    let mut tally = Tally::new();
    for i in 0..script.len() {
        let Some(line) = script.line(i) else {
            unreachable!()
        };
        match count_line(world, line, tally) {
            Ok(counted) => tally = counted,
            Err(fault) => return Err(fault),
        }
    }
    Ok(tally)
}

/// Runs a line, and counts what is reported of its event.
fn count_line(world: &mut World, line: &Line, tally: Tally) -> Result<Tally, RunFault>
    requires run { CanRunLine world.old line.now.act }
    requires count { CanCount tally }
    ensures { CountsAct world.old world.new line.now.act tally result }
{
    match &line.act {
        LineAct::Event(event) => match run_event(world, event) {
            Ok(report) => Ok(tally.with(&report)),
            Err(stop) => Err(stop_fault(stop)),
        },
        LineAct::State { .. } => Ok(tally),
    }
}
