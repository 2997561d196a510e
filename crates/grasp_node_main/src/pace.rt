//! How far the network loop has come, for the agents that keep its pace.

use std::sync::Wait;
use std::sync::atomic::{AtomicU64, Ordering};

/// How many turns the network loop has made.
#[derive(Drop)]
pub(crate) struct Pace {
    made: AtomicU64,
}

impl Pace {
    /// No turn was made.
    pub(crate) fn new() -> Pace {
        Pace {
            made: AtomicU64::new(0),
        }
    }

    /// One more turn was made.
    pub(crate) fn step(&self) {
        self.made.fetch_add(1, Ordering::SeqCst);
        self.made.wake_all();
    }

    /// Waits until so many turns were made.
    pub(crate) fn wait_for<R: Wait>(&self, rt: &R, turns: u32) {
        for _ in rt.forever() {
            let made = self.made.load(Ordering::SeqCst);
            if made >= u64::from(turns) {
                return;
            }
            self.made.park(rt, (made & 0xffff_ffff) as u32);
        }
        unreachable!()
    }
}
