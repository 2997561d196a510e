//! A meeting of the network loop and two agents: each waits for the other two, for a while, before it goes on. Where two of them
//! ran one after the other they would never meet.

ghost use Rattle.std.specs.Prelude.{None};

use grasp_io::{Asked, Clock, Failed, LinkPlan, Links, MemSink, MemSource, Sent};
use grasp_node_main::{Gate, Status, node_run};
use grasp_types::Output;
use std::sync::atomic::{AtomicU64, Ordering};
use std::test::Fail;
use std::thread::yield_now;

/// The network loop, the agent that manages prefixes and a reader.
const ALL: u64 = 3;

/// How often each looks for the others.
const LOOKS: u64 = 1_000_000;

const READER: &str = "\
address = \"fd000000000000000000000000000002\"
listen = \"7f000001:7017\"
turns = 3
reader = [{ name = \"a\" }]
";

/// How many have come, and how many saw that all came.
#[derive(Drop)]
struct Meeting {
    came: AtomicU64,
    met: AtomicU64,
}

impl Meeting {
    /// Comes, and looks for the others.
    fn come(&self) {
        self.came.fetch_add(1, Ordering::SeqCst);
        for _look in 0..LOOKS {
            if self.came.load(Ordering::SeqCst) == ALL {
                self.met.fetch_add(1, Ordering::SeqCst);
                return;
            }
            yield_now();
        }
    }
}

impl Gate for Meeting {
    fn before(&self, _agent: u8, call: u64) {
        if call == 0 {
            self.come();
        }
    }
}

/// Links that come to the meeting at the first ask, and give nothing.
#[derive(Drop)]
struct MeetingLinks<'a> {
    meeting: &'a Meeting,
    asked: bool,
}

impl Links for MeetingLinks<'_> {
    ghost waits = { λ _. None };

    ghost given = { λ _. None };

    ghost handed = { λ _. None };

    ghost opened = { λ _. 0 };

    ghost faults = { λ _. 0 };

    fn open(&mut self, _plan: &LinkPlan) -> Result<(), Failed> {
        Ok(())
    }

    fn ask(&mut self, _wait_ms: u32) -> Asked {
        if !self.asked {
            self.asked = true;
            self.meeting.come();
        }
        Asked::Nothing
    }

    fn send(&mut self, _output: &Output) -> Sent {
        Sent::Sent
    }
}

/// A clock that stands still.
#[derive(Drop)]
struct StillClock;

impl Clock for StillClock {
    ghost readings = { λ _. None };

    ghost latest = { λ _. 0 };

    fn now(&mut self) -> u64 {
        0
    }
}

#[test]
fn all_three_meet(rt: HostRuntime) -> Result<(), Fail> {
    let alloc = rt.alloc();
    let words = vec![in alloc;
        String::from_str(alloc, "run")?,
        String::from_str(alloc, "node.toml")?,
    ]?;
    let meeting = Meeting {
        came: AtomicU64::new(0),
        met: AtomicU64::new(0),
    };
    let mut links = MeetingLinks {
        meeting: &meeting,
        asked: false,
    };
    let mut source = MemSource::new(READER.as_bytes());
    let mut sink = MemSink::new(alloc);
    let mut clock = StillClock;
    let status = node_run(
        &rt,
        alloc,
        &words,
        &mut source,
        &mut sink,
        &mut links,
        &mut clock,
        [7; 32],
        &meeting,
    );
    assert!(rt; status == Status::Ok);
    assert!(rt; meeting.met.load(Ordering::SeqCst) == ALL);
    Ok(())
}
