//! The readings that lines tell.

ghost use Rattle.grasp_audit.specs.Lines.{TellsInTime};
ghost use Rattle.grasp_audit.specs.Standing.{HasLine};

use grasp_record::RecordLine;
use grasp_simulator::World;

/// Whether the line's reading isn't below that of its node.
pub(crate) fn is_in_time(world: &World, line: &RecordLine) -> bool
    requires { HasLine world.now line.now }
    ensures { TellsInTime world.now line.entry.now result }
{
    world.node(line.node).now() <= line.now
}
