//! The record of one line of a script.

ghost use Rattle.std.specs.Prelude.{◌≡◌, ◌-◌, IsSome, IsTrue, Some, slice_get, slice_set};
ghost use Rattle.grasp_model_network.specs.Sending.{event_drain};
ghost use Rattle.grasp_model_network.specs.Plans.{IsGoodPlan};
ghost use Rattle.grasp_model_network.specs.Runs.{world_of};
ghost use Rattle.grasp_model_network.specs.Setting.{script_setting};
ghost use Rattle.grasp_model_network.specs.declared.event.Event.TheVariants as event;
ghost use Rattle.grasp_model_network.specs.declared.plan.WorldPlan.{WorldPlan};
ghost use Rattle.grasp_model_network.specs.declared.report.Report.TheVariants as report;
ghost use Rattle.grasp_script.specs.declared.line.LineAct.TheVariants as act;
ghost use Rattle.grasp_recorder.specs.Lines.{CanRecord, KnowsReadings, RecordsAct};
ghost use Rattle.grasp_recorder.specs.Taking.{CanHappen, CanRecordEvent, HasReading, IsReading, IsRecordedStep, RecordsEvent, TellsStep, TellsTaken};
ghost use Rattle.grasp_recorder.specs.Taking.{told_of};

use crate::answers::{answer_in, is_drained, undrained};
use crate::placing::placed_event;
use crate::taken::Taken;
use crate::texts::{drain_told, one_line, step_and_drain_told};
use crate::traffic::taken_at;
use grasp_cbor::{Chars, OutOfMemory};
use grasp_laws_delivery::steps_are_present;
use grasp_model_network::{Event, Report, WorldStop};
use grasp_record::RecordLine;
use grasp_script::{Line, LineAct};
use grasp_simulator::World;
use grasp_types::Outputs;
use std::alloc::Global;

/// A network has at most so many nodes.
const MOST_NODES: usize = 64;

/// So many outputs of a node are sent behind an event.
const EVENT_DRAIN: u32 = 256;

/// Writes what is recorded of the lines of a script while they are run. It knows the readings of the nodes' clocks.
///
/// A recorder is of one network, from its opening on, and is to make every event of it.
#[derive(Drop)]
pub struct Recorder {
    pub(crate) readings: [u64; MOST_NODES],
}

impl Recorder {
    /// The recorder of a network that was just opened.
    pub fn new() -> Recorder
        ensures { (plan : WorldPlan) → IsGoodPlan plan → KnowsReadings result (script_setting plan) (world_of plan) }
    {
        Recorder {
            readings: [0; MOST_NODES],
        }
    }

    /// Runs a line in a network, and answers its record lines, each ended by LF: one for what a node took and answered at it, and one
    /// for the drain behind that, where there is one. It has none where nothing came of it, or where it only shows a node.
    ///
    /// After an `Err` nothing is said of the network, nor of the recorder.
    pub fn line(
        &mut self,
        alloc: Global,
        world: &mut World,
        line: &Line,
    ) -> Result<Chars, WorldStop>
        requires { CanRecord self.old world.old line.now.act }
        ensures { RecordsAct self.old world.old self.new world.new line.now.act result }
    {
        match &line.act {
            LineAct::Event(event) => self.event(alloc, world, event),
            LineAct::State { .. } => Ok(Chars::new(alloc)),
        }
    }

    /// The record lines of an event of a line.
    fn event(&mut self, alloc: Global, world: &mut World, event: &Event) -> Result<Chars, WorldStop>
        requires { CanRecord self.old world.old (act.Event event.now) }
        ensures { RecordsAct self.old world.old self.new world.new (act.Event event.now) result }
    {
        match placed_event(world, event) {
            Ok(placed) => self.placed(alloc, world, placed),
            Err(OutOfMemory) => Err(WorldStop::OutOfMemory),
        }
    }

    /// The record lines of an event.
    fn placed(&mut self, alloc: Global, world: &mut World, event: Event) -> Result<Chars, WorldStop>
        requires { CanRecordEvent self.old world.old event }
        ensures { RecordsEvent self.old world.old self.new world.new event result }
    {
        match event {
            Event::Clock { node, millis } => self.clock(alloc, world, node, millis),
            Event::Drain { node, max } => self.drain(alloc, world, node, max),
            other => self.step(alloc, world, other),
        }
    }

    /// The record line of a clock, which is that of a drain of nothing.
    fn clock(
        &mut self,
        alloc: Global,
        world: &mut World,
        node: u8,
        millis: u64,
    ) -> Result<Chars, WorldStop>
        requires { CanRecordEvent self.old world.old (event.Clock node millis) }
        ensures { RecordsEvent self.old world.old self.new world.new (event.Clock node millis) result }
    {
        steps_are_present();
        match world.step(Event::Clock { node, millis }) {
            Ok(report) => {
                let now = shown(report);
                self.set_reading(node, now);
                told(drain_told(alloc, node, now, 0, Outputs::new(alloc)))
            }
            Err(stop) => Err(stop),
        }
    }

    /// The record line of a drain.
    fn drain(
        &self,
        alloc: Global,
        world: &mut World,
        node: u8,
        max: u32,
    ) -> Result<Chars, WorldStop>
        requires { CanRecordEvent self.now world.old (event.Drain node max) }
        ensures { RecordsEvent self.now world.old self.now world.new (event.Drain node max) result }
    {
        steps_are_present();
        match world.drain(node, max) {
            Ok(outputs) => told(drain_told(alloc, node, self.reading(node), max, outputs)),
            Err(stop) => Err(stop),
        }
    }

    /// The record lines of a step at which something comes in, of a want or of a return.
    fn step(&self, alloc: Global, world: &mut World, event: Event) -> Result<Chars, WorldStop>
        requires can { CanRecordEvent self.now world.old event }
        requires step { IsRecordedStep event }
        ensures { RecordsEvent self.now world.old self.now world.new event result }
    {
        match taken_at(alloc, world, &event) {
            Ok(taken) => self.stepped(alloc, world, event, taken),
            Err(OutOfMemory) => Err(WorldStop::OutOfMemory),
        }
    }

    /// The record lines of a step, at which this is taken where something comes of it.
    fn stepped(
        &self,
        alloc: Global,
        world: &mut World,
        event: Event,
        taken: Option<Taken>,
    ) -> Result<Chars, WorldStop>
        requires can { CanRecordEvent self.now world.old event }
        requires step { IsRecordedStep event }
        requires taken { TellsTaken world.old event taken }
        ensures { RecordsEvent self.now world.old self.now world.new event result }
    {
        steps_are_present();
        let drained = is_drained(&event);
        match world.step(undrained(event)) {
            Ok(report) => match answer_in(report) {
                Some(answer) => {
                    let known = brought(taken);
                    let now = self.reading(known.node);
                    step_told(
                        alloc,
                        world,
                        &RecordLine {
                            node: known.node,
                            now,
                            input: known.input,
                            answer,
                        },
                        drained,
                    )
                }
                None => Ok(Chars::new(alloc)),
            },
            Err(stop) => Err(stop),
        }
    }

    /// A node's clock reads this.
    fn set_reading(&mut self, node: u8, now: u64)
        requires { HasReading node }
        ensures { self.new ≡ record self.old { readings = slice_set self.old.readings (node - 1) now } }
    {
        self.readings[usize::from(node - 1)] = now;
    }

    /// The reading of a node's clock.
    fn reading(&self, node: u8) -> u64
        requires { HasReading node }
        ensures { Some result ≡ slice_get self.now.readings (node - 1) }
    {
        self.readings[usize::from(node - 1)]
    }
}

/// What was taken, where something was.
fn brought(taken: Option<Taken>) -> Taken
    requires { IsSome taken }
    ensures { taken ≡ Some result }
{
    match taken {
        Some(taken) => taken,
        None => unreachable!(),
    }
}

/// The line of a step, and that of the drain behind it, where there is one.
fn step_told(
    alloc: Global,
    world: &mut World,
    line: &RecordLine,
    drained: bool,
) -> Result<Chars, WorldStop>
    requires { IsTrue drained → CanHappen world.old (event.Drain line.now.node event_drain) }
    ensures { TellsStep world.old world.new line.entry.now drained result }
{
    if !drained {
        return told(one_line(alloc, line));
    }
    match world.drain(line.node, EVENT_DRAIN) {
        Ok(outputs) => told(step_and_drain_told(alloc, line, EVENT_DRAIN, outputs)),
        Err(stop) => Err(stop),
    }
}

/// The reading that is reported of a clock.
fn shown(told: Report) -> u64
    requires { IsReading told }
    ensures { told ≡ report.Reading result }
{
    reading_in(&told)
}

/// The reading in a report of one.
fn reading_in(told: &Report) -> u64
    requires { IsReading told.now }
    ensures { told.now ≡ report.Reading result }
{
    match told {
        Report::Reading(now) => *now,
        _ => unreachable!(),
    }
}

/// What was written, or why not.
fn told(written: Result<Chars, OutOfMemory>) -> Result<Chars, WorldStop>
    ensures { result ≡ told_of written }
{
    match written {
        Ok(text) => Ok(text),
        Err(OutOfMemory) => Err(WorldStop::OutOfMemory),
    }
}
