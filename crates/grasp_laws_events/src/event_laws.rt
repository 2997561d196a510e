//! What each event does. They say nothing at run time.

ghost use Rattle.grasp_laws_events.specs.Reporting.{EventsAreReported};
ghost use Rattle.grasp_laws_events.specs.Sides.{SidesStandSo};
ghost use Rattle.grasp_laws_events.specs.Steps.{EventsMakeSteps, NetworksBegin, StepsHaveStreams, StepsLeaveNodes};
ghost use Rattle.grasp_laws_events.specs.Stopping.{StopsHaveCauses};
ghost use Rattle.grasp_laws_events.specs.Ways.{DatagramsAreSent};

use grasp_laws_delivery::streams_are_ready;

/// In the first network each member has its node, with its plan and its roots, and nothing was sent.
pub fn networks_begin()
    ensures { NetworksBegin }
{}

/// Each event whose node, datagram or side is there makes its step there, with what was sent.
pub fn events_make_steps()
    ensures { EventsMakeSteps }
{
    streams_are_ready();
}

/// An event of a stream makes a step for the stream of its number alone, and at a side that lives, or is to be opened where the stream was dialled to.
pub fn steps_have_streams()
    ensures { StepsHaveStreams }
{}

/// The life that makes a step is then what the step has made of its node, and its agent has taken the reply to its own call.
pub fn steps_leave_nodes()
    ensures { StepsLeaveNodes }
{}

/// An event is reported as what came of it: the node's reading, the count of outputs, the reply, or whether a want or a return was taken.
pub fn events_are_reported()
    ensures { EventsAreReported }
{}

/// A network is stopped for too much exactly where more than 268435456 bytes were sent, and none is for want of memory at a clock.
pub fn stops_have_causes()
    ensures { StopsHaveCauses }
{}

/// A drain sends each datagram that it gives, along its way, and nothing else sends one.
pub fn datagrams_are_sent()
    ensures { DatagramsAreSent }
{}

/// A stream that is opened lives or was turned away as the reply says, a side that is cut is told so, and no other side changes.
pub fn sides_stand_so()
    ensures { SidesStandSo }
{
    streams_are_ready();
}
