//! A clock in memory.
ghost use Rattle.std.specs.Prelude.{◌≡◌, ◌<◌, [], Some, length, take, min};
ghost use Rattle.grasp_io.specs.MemoryClock.{highest, readings_of};

use crate::Clock;
use grasp_cbor::Steps;
use std::sync::ledger::{Blank, Ledger};

/// A clock that is given its readings. Where one is below an earlier one, and after the last one, it gives the highest reading
/// so far again. The readings that it gave are counted in a ledger of its own.
#[derive(Drop)]
pub struct MemClock<'a, L: Ledger> {
    readings: &'a [u64],
    next: usize,
    latest: u64,
    count: Steps<L>,
    ghost place: { next ≡ min count (length readings.now) },
    ghost highest_so_far: { latest ≡ highest (take count readings.now) },
}

impl<'a, L: Ledger> MemClock<'a, L> {
    /// A clock that gives these readings, in milliseconds.
    pub fn new(blank: Blank, readings: &'a [u64]) -> Self
        requires name { blank.name ≡ L.name }
        requires parts { blank.parts ≡ L.parts }
        requires some { 0 < blank.parts }
        ensures told { ⟦<MemClock<'a, L> as Clock>⟧.readings result ≡ Some [] }
        ensures latest { ⟦<MemClock<'a, L> as Clock>⟧.latest result ≡ 0 }
    {
        MemClock {
            readings,
            next: 0,
            latest: 0,
            count: Steps::new(blank),
        }
    }
}

impl<L: Ledger> Clock for MemClock<'_, L> {
    ghost readings = { λ s. Some (readings_of s.readings.now s.count) };

    ghost latest = { λ s. s.latest };

    fn now(&mut self) -> u64 {
        self.count.tick();
        let Some(reading) = self.readings.get(self.next) else {
            return self.latest;
        };
        self.latest = self.latest.max(*reading);
        self.next += 1;
        self.latest
    }
}
