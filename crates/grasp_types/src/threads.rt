//! What may go to another thread.

ghost use denote.Param.Send.{IsSend};
ghost use Rattle.grasp_types.specs.contracts.message.Message as message;
ghost use Rattle.grasp_types.specs.contracts.traffic.Input as input;
ghost use Rattle.grasp_types.specs.contracts.reply.Reply as reply;
ghost use Rattle.grasp_types.specs.contracts.links.Neighbour as neighbour;
ghost use Rattle.grasp_types.specs.contracts.list.List as list;

use crate::{Input, LinkLists, Message, Reply};

/// Values of this type may go to another thread: the bound says so.
fn may_go<T: Send>()
    ensures { IsSend T.row }
{}

/// Messages, inputs, replies and plans of links may go to another thread.
pub fn types_may_cross()
    ensures messages { IsSend message.the_row }
    ensures inputs { IsSend input.the_row }
    ensures replies { IsSend reply.the_row }
    ensures links { IsSend (list.the_row (list.the_row neighbour.the_row)) }
{
    may_go::<Message>();
    may_go::<Input>();
    may_go::<Reply>();
    may_go::<LinkLists>();
}
