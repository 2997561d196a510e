//! What may go to another thread.

ghost use denote.Param.Send.{IsSend};
ghost use Rattle.grasp_agent.specs.contracts.prefix_agent.PrefixAgent as prefix_agent;
ghost use Rattle.grasp_agent.specs.contracts.beacon.Beacon as beacon;
ghost use Rattle.grasp_agent.specs.contracts.reader.Reader as reader;

use crate::{Beacon, PrefixAgent, Reader};

/// Values of this type may go to another thread: the bound says so.
fn may_go<T: Send>()
    ensures { IsSend T.row }
{}

/// Agents may go to another thread.
pub fn agents_may_cross()
    ensures prefix_agents { IsSend prefix_agent.the_row }
    ensures beacons { IsSend beacon.the_row }
    ensures readers { IsSend reader.the_row }
{
    may_go::<PrefixAgent>();
    may_go::<Beacon>();
    may_go::<Reader>();
}
