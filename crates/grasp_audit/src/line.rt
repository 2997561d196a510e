//! The audit of one line.

ghost use Rattle.grasp_audit.specs.Lines.{AuditsLine, HasAsked, HasFound, HasNamed, HasRead};
ghost use Rattle.grasp_audit.specs.Standing.{GoesOn};

use crate::agents::is_of_agent;
use crate::answers::has_answered;
use crate::clocks::turn_clock;
use crate::events::name_event;
use crate::fault::{LineFault, verdict_of};
use crate::reading::is_in_time;
use grasp_cbor::OutOfMemory;
use grasp_model_network::Event;
use grasp_record::{RecordLine, read_record_line, record_lines_mean_one_thing};
use grasp_simulator::World;
use std::alloc::Global;

/// A line is read, names an event, and the event happens: it is to be answered as the line says. After an `Err` nothing is said of the
/// network.
pub(crate) fn audit_line(
    alloc: Global,
    world: &mut World,
    text: &[u8],
    nodes: u8,
) -> Result<(), LineFault>
    requires { GoesOn world.old nodes }
    ensures { AuditsLine world.old world.new nodes text.now result }
{
    match read_record_line(alloc, text, nodes) {
        Ok(Some(line)) => audit_own(alloc, world, text, line, nodes),
        Ok(None) => Err(LineFault::BadRecord),
        Err(OutOfMemory) => Err(LineFault::OutOfMemory),
    }
}

/// A line of a record is audited, and then dropped.
fn audit_own(
    alloc: Global,
    world: &mut World,
    text: &[u8],
    line: RecordLine,
    nodes: u8,
) -> Result<(), LineFault>
    requires { HasFound world.old nodes text.now line }
    ensures { AuditsLine world.old world.new nodes text.now result }
{
    audit_found(alloc, world, text, &line, nodes)
}

/// A line of a record is to tell no reading below that of its node.
fn audit_found(
    alloc: Global,
    world: &mut World,
    text: &[u8],
    line: &RecordLine,
    nodes: u8,
) -> Result<(), LineFault>
    requires { HasFound world.old nodes text.now line.now }
    ensures { AuditsLine world.old world.new nodes text.now result }
{
    record_lines_mean_one_thing();
    if is_in_time(world, line) {
        audit_read(alloc, world, text, line, nodes)
    } else {
        Err(LineFault::BadRecord)
    }
}

/// A line that was read names an event, which is to happen and to be answered so.
fn audit_read(
    alloc: Global,
    world: &mut World,
    text: &[u8],
    line: &RecordLine,
    nodes: u8,
) -> Result<(), LineFault>
    requires { HasRead world.old nodes text.now line.now }
    ensures { AuditsLine world.old world.new nodes text.now result }
{
    match name_event(world, line) {
        Ok(Some(event)) => audit_named(alloc, world, text, line, event, nodes),
        Ok(None) => Err(LineFault::NotSent),
        Err(OutOfMemory) => Err(LineFault::OutOfMemory),
    }
}

/// The event that a line names is to happen and to be answered so. A call of the node's own agent is to be the one that it makes next.
fn audit_named(
    alloc: Global,
    world: &mut World,
    text: &[u8],
    line: &RecordLine,
    event: Event,
    nodes: u8,
) -> Result<(), LineFault>
    requires { HasNamed world.old nodes text.now line.now event }
    ensures { AuditsLine world.old world.new nodes text.now result }
{
    match is_of_agent(alloc, world, line) {
        Ok(yes) => {
            if yes {
                audit_asked(alloc, world, text, line, event, nodes)
            } else {
                Err(LineFault::NotAgent)
            }
        }
        Err(OutOfMemory) => Err(LineFault::OutOfMemory),
    }
}

/// The clock shows the line's reading, and the event happens, which is to be answered so.
fn audit_asked(
    alloc: Global,
    world: &mut World,
    text: &[u8],
    line: &RecordLine,
    event: Event,
    nodes: u8,
) -> Result<(), LineFault>
    requires { HasAsked world.old nodes text.now line.now event }
    ensures { AuditsLine world.old world.new nodes text.now result }
{
    match turn_clock(world, line) {
        Ok(()) => verdict_of(has_answered(alloc, world, text, line, event)),
        Err(fault) => Err(fault),
    }
}
