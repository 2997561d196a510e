//! The calls of a node's doubter.

ghost use Rattle.std.specs.Prelude.{◌≡◌};
ghost use Rattle.grasp_model_network.specs.declared.report.Report.TheVariants as report;
ghost use Rattle.grasp_doubts.specs.Nodes.{CallsFit, CanSettle, CanSettleWhere, HasDoubter, IsReply, MakesCall, Settles, SettlesWhere};

use grasp_doubter::Doubter;
use grasp_laws_doubts::{doubt_grounds_hold, settlings_are_of_dead};
use grasp_laws_floods::initiators_tell_searches;
use grasp_laws_questions::questions_begin;
use grasp_model_network::{Event, Report, Turn, WorldStop};
use grasp_simulator::World;
use grasp_types::{Plain, Prefix, Reply};

/// The number of a node's doubter among its agents.
pub(crate) const DOUBTER: u32 = 2;

/// The doubter of a node makes its next call and takes the reply. The prefix that this settles is free then.
pub(crate) fn call_doubter(
    world: &mut World,
    doubter: &mut Doubter,
    node: u8,
) -> Result<Report, WorldStop>
    requires { HasDoubter world.old doubter.old node }
    ensures { MakesCall world.old world.new doubter.old doubter.new node result }
{
    settlings_are_of_dead();
    calls_fit();
    let Ok(call) = doubter.next() else {
        return Err(WorldStop::OutOfMemory);
    };
    let Ok(made) = call.copy() else {
        return Err(WorldStop::OutOfMemory);
    };
    match world.step(Event::Api {
        node,
        asa: DOUBTER,
        call: made,
        hold: false,
    }) {
        Ok(told) => {
            let reply = reply_of(told);
            let settled = doubter.take(world.agent(node), &reply);
            settle_where(world, node, settled);
            Ok(Report::Agent { call, reply })
        }
        Err(stop) => Err(stop),
    }
}

/// A law: each doubter's next call is within the ranges of what calls carry.
fn calls_fit()
    ensures { CallsFit }
{
    doubt_grounds_hold();
    questions_begin();
    initiators_tell_searches();
}

/// The reply of which a call's report tells.
fn reply_of(told: Report) -> Reply
    requires { IsReply told }
    ensures { told ≡ report.Reply result }
{
    match told {
        Report::Reply(reply) => reply,
        _ => unreachable!(),
    }
}

/// Where there is a prefix to settle, the node settles it.
fn settle_where(world: &mut World, node: u8, prefix: Option<Prefix>)
    requires { CanSettleWhere world.old node prefix }
    ensures { SettlesWhere world.old world.new node prefix }
{
    match prefix {
        Some(prefix) => settle(world, node, prefix),
        None => {}
    }
}

/// The node settles a prefix, whose offer is accepted never.
fn settle(world: &mut World, node: u8, prefix: Prefix)
    requires { CanSettle world.old node prefix }
    ensures { Settles world.old world.new node prefix }
{
    match world.turn(Turn::Settle { node, prefix }) {
        Ok(_) => {}
        Err(_) => unreachable!(),
    }
}
