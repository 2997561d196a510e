//! What happens in a network.

ghost use Rattle.std.specs.Prelude.{◌≡◌, None, Some, length, IfOk, OnErr};
ghost use Rattle.grasp_model_network.specs.Events.{AreLengths};
ghost use Rattle.grasp_model_network.specs.Plans.{IsNode};
ghost use Rattle.grasp_model_network.specs.declared.event.Event.TheVariants as event;
ghost use Rattle.grasp_model_network.specs.declared.report.Report.TheVariants as report;
ghost use Rattle.grasp_simulator.specs.WorldSteps.{IsAsked, Runs, MayStarve, Ends, Stepped};

use crate::opening::locator_of;
use crate::seat::is_starved;
use crate::world::World;
use grasp_agent::{ReturnFault, WantFault};
use grasp_cbor::OutOfMemory;
use grasp_laws_delivery::streams_are_ready;
use grasp_laws_node_stories::acceptances_are_calls;
use grasp_laws_prefixes::grounds_hold;
use grasp_model_network::{Event, Report, WorldStop};
use grasp_types::{Call, Prefix};

/// So many bytes of datagrams and streams may be sent.
pub(crate) const MOST_BYTES: u64 = 268_435_456;

impl World {
    /// Something happens. Node and peer are to be there, the lengths of a want are to be lengths of prefixes, and what is given
    /// back is to be a prefix. No call is to be made as agent 1, which is the node's own, and what a call carries is to be within
    /// its ranges: texts are UTF-8, values have an encoding, flags are at most 15, and numbers are in their types. After an `Err`
    /// every later event is answered by it again.
    pub fn step(&mut self, event: Event) -> Result<Report, WorldStop>
        requires { IsAsked self.old event }
        ensures { Stepped self.old self.new event result }
    {
        if let Some(stop) = self.stopped {
            return Err(stop);
        }
        grounds_hold();
        acceptances_are_calls();
        match self.run(event) {
            Ok(report) => self.end(report),
            Err(OutOfMemory) => Err(self.stop(WorldStop::OutOfMemory)),
        }
    }

    /// The network goes no further.
    pub(crate) fn stop(&mut self, stop: WorldStop) -> WorldStop
        ensures result { result ≡ stop }
        ensures stopped { self.new ≡ record self.old { stopped = Some stop } }
    {
        self.stopped = Some(stop);
        stop
    }

    /// An event is reported, unless more was sent than may be.
    fn end(&mut self, report: Report) -> Result<Report, WorldStop>
        ensures { Ends self.old self.new report result }
    {
        if self.sent > MOST_BYTES {
            return Err(self.stop(WorldStop::TooMuch));
        }
        Ok(report)
    }

    /// An event, whether too much is sent or not. After an `Err` nothing is said of the network but that it has as many nodes.
    fn run(&mut self, event: Event) -> Result<Report, OutOfMemory>
        requires asked { IsAsked self.old event }
        requires goes { self.old.stopped ≡ None }
        ensures runs { IfOk result (λ report. Runs self.old self.new event report) }
        ensures wanted { OnErr result (MayStarve self.old event) }
        ensures count { length self.new.seats.items ≡ length self.old.seats.items }
    {
        match event {
            Event::Clock { node, millis } => Ok(Report::Reading(self.clock(node, millis))),
            Event::Want {
                node,
                length,
                longest,
                peer,
            } => Ok(Report::Want(self.want(node, length, longest, peer))),
            Event::Return { node, prefix, peer } => {
                Ok(Report::Return(self.hand_back(node, prefix, peer)))
            }
            Event::Api {
                node,
                asa,
                call,
                hold,
            } => self.call(node, asa, call, hold),
            Event::Agent { node, hold } => self.call_own(node, hold),
            Event::Datagram { index, hold } => self.datagram(index, hold),
            Event::Drain { node, max } => Ok(Report::Sent(self.send(node, max)?)),
            Event::Arrive { stream, hold } => self.arrive(stream, hold),
            Event::Bytes {
                stream,
                far,
                count,
                hold,
            } => self.bytes(stream, far, count, hold),
            Event::Cut { stream, far, hold } => self.cut(stream, far, hold),
        }
    }

    /// The clock of a node shows this reading, in milliseconds. The answer is the node's own reading then.
    fn clock(&mut self, node: u8, millis: u64) -> u64
        requires { IsNode (length self.old.seats.items) node }
        ensures runs { Runs self.old self.new (event.Clock node millis) (report.Reading result) }
        ensures count { length self.new.seats.items ≡ length self.old.seats.items }
    {
        streams_are_ready();
        self.seats[usize::from(node - 1)].clock(millis)
    }

    /// A node's agent is to get a prefix of such a length from a peer. The answer is whether it takes the want.
    fn want(&mut self, node: u8, least: u8, longest: u8, peer: u8) -> Result<(), WantFault>
        requires node { IsNode (length self.old.seats.items) node }
        requires lengths { AreLengths least longest }
        ensures runs { Runs self.old self.new (event.Want node least longest peer) (report.Want result) }
        ensures count { length self.new.seats.items ≡ length self.old.seats.items }
    {
        self.seats[usize::from(node - 1)].want(least, longest, locator_of(peer))
    }

    /// A node's agent is to give a prefix back to a peer. The answer is whether it takes the return.
    fn hand_back(&mut self, node: u8, prefix: Prefix, peer: u8) -> Result<(), ReturnFault>
        requires { IsNode (length self.old.seats.items) node }
        ensures runs { Runs self.old self.new (event.Return node prefix peer) (report.Return result) }
        ensures count { length self.new.seats.items ≡ length self.old.seats.items }
    {
        self.seats[usize::from(node - 1)].hand_back(prefix, locator_of(peer))
    }

    /// Another agent of a node makes a call.
    fn call(&mut self, node: u8, asa: u32, call: Call, hold: bool) -> Result<Report, OutOfMemory>
        requires { IsNode (length self.old.seats.items) node }
        ensures runs { IfOk result (λ report. Runs self.old self.new (event.Api node asa call hold) report) }
        ensures count { length self.new.seats.items ≡ length self.old.seats.items }
    {
        streams_are_ready();
        let life = self.seats[usize::from(node - 1)].life;
        let (reply, accepted) = self.seats[usize::from(node - 1)].call_step(asa, call);
        if is_starved(&reply) {
            return Err(OutOfMemory);
        }
        self.places.note(life, &reply)?;
        self.notes.accept(life, accepted)?;
        self.send_behind(node, hold)?;
        Ok(Report::Reply(reply))
    }
}
