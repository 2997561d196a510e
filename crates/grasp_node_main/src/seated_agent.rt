//! An agent at its place, with a pass of its own.

ghost use Rattle.std.specs.Prelude.{◌≡◌, IfOk};
ghost use Rattle.grasp_node_main.specs.Seats.{first_seat};
ghost use Rattle.grasp_node_main.specs.Sharing.{HasPass, Called, SeatGoes};
ghost use Rattle.grasp_node_main.specs.Workers.{ready_worker, next_input};

use crate::gate::Gate;
use crate::pace::Pace;
use crate::worker::Worker;
use grasp_cbor::OutOfMemory;
use grasp_shared::{Pass, Shared};
use grasp_types::Input;
use std::sync::Wait;

/// An agent, whether it has stopped for want of memory, and its pass while it may call.
#[derive(Drop)]
pub struct SeatedAgent {
    pub(crate) worker: Worker,
    pub(crate) stopped: bool,
    pub(crate) pass: Option<Pass>,
}

impl SeatedAgent {
    /// An agent that has made no call in a turn, and has no pass yet.
    pub fn of(worker: Worker) -> SeatedAgent
        ensures { result ≡ first_seat worker }
    {
        SeatedAgent {
            worker,
            stopped: false,
            pass: None,
        }
    }

    /// The agent's next call. After an `Err` nothing is claimed of the agent.
    fn next(&mut self) -> Result<Input, OutOfMemory>
        ensures call { IfOk result (λ i. i ≡ next_input self.old.worker) }
        ensures ready { IfOk result (λ i. self.new ≡ record self.old { worker = ready_worker self.old.worker }) }
        ensures pass { self.new.pass ≡ self.old.pass }
    {
        self.worker.ready()?;
        self.worker.call()
    }

    /// One call of the agent, at the reading 0. It may wait for other callers.
    fn call<R: Wait>(&mut self, rt: &R, shared: &Shared, input: Input)
        requires { HasPass shared.now self.old }
        ensures { Called shared.now input self.old self.new }
    {
        match &mut self.pass {
            Some(pass) => {
                let reply = shared.call(rt, pass, 0, input);
                self.worker.take(reply);
            }
            None => unreachable!(),
        }
    }

    /// One turn of the agent: it makes its next call, unless it has stopped. Where there is no memory for the call it stops.
    fn turn<R: Wait, G: Gate>(&mut self, rt: &R, shared: &Shared, gate: &G, agent: u8, call: u64)
        requires { HasPass shared.now self.old }
        ensures { SeatGoes shared.now 1 self.old self.new }
    {
        if self.stopped {
            return;
        }
        match self.next() {
            Ok(input) => {
                gate.before(agent, call);
                self.call(rt, shared, input);
            }
            Err(OutOfMemory) => self.stopped = true,
        }
    }

    /// So many turns of the agent, of which none comes before as many turns of the network loop.
    pub(crate) fn run<R: Wait, G: Gate>(
        &mut self,
        rt: &R,
        shared: &Shared,
        gate: &G,
        pace: &Pace,
        place: usize,
        turns: u32,
    )
        requires { HasPass shared.now self.old }
        ensures { SeatGoes shared.now turns self.old self.new }
    {
        let agent = u8::try_from(place.saturating_add(1)).unwrap_or(u8::MAX);
        for turn in 0..turns {
            pace.wait_for(rt, turn);
            self.turn(rt, shared, gate, agent, u64::from(turn));
        }
    }
}
