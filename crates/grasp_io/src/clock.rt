//! What gives a node the time, and the clock and the random source of the machine.
ghost use Rattle.std.specs.Prelude.{◌≡◌, ◌≤◌, List, ℕ, Option, None};
ghost use Rattle.grasp_io.specs.Told.{Grows};

use std::random::RandomSource;
use std::time;
use std::time::Instant;

/// Gives the time in milliseconds, which never falls.
pub trait Clock {
    /// The readings given so far, where they are told.
    ghost readings: { Self → Option (List ℕ) };

    /// The last reading, or 0 where there was none.
    ghost latest: { Self → ℕ };

    /// The milliseconds since some start.
    fn now(&mut self) -> u64
        ensures never_falls { latest self.old ≤ result }
        ensures kept { latest self.new ≡ result }
        ensures told { Grows (readings self.old) (readings self.new) result };
}

/// The clock of the machine, which counts from its making. It tells no readings.
#[derive(Drop)]
pub struct StdClock<R: time::Clock + Drop> {
    rt: R,
    start: Option<Instant>,
    latest: u64,
}

impl<R: time::Clock + Drop> StdClock<R> {
    /// A clock that starts now. Where the machine's clock can't be read it stands still.
    pub fn new(rt: R) -> Self
        ensures { ⟦<StdClock<R> as Clock>⟧.latest result ≡ 0 }
    {
        let start = Instant::now(&rt).ok();
        StdClock {
            rt,
            start,
            latest: 0,
        }
    }

    // The milliseconds since the start, where the clock can be read.
    fn read(&self) -> Option<u64> {
        millis_since(&self.rt, self.start?)
    }
}

impl<R: time::Clock + Drop> Clock for StdClock<R> {
    ghost readings = { λ _. None };

    ghost latest = { λ s. s.latest };

    fn now(&mut self) -> u64 {
        if let Some(reading) = self.read() {
            self.latest = self.latest.max(reading);
        }
        self.latest
    }
}

/// The milliseconds that passed since then, where the clock can be read.
pub(crate) fn millis_since<R: time::Clock>(rt: &R, start: Instant) -> Option<u64> {
    let passed = start.elapsed(rt).ok()?;
    Some(u64::try_from(passed.as_millis()).unwrap_or(u64::MAX))
}

/// 32 bytes of the machine's random source, or `None` where it gives none.
pub fn random_seed<R: RandomSource>(rt: &R) -> Option<[u8; 32]> {
    let mut seed = [0; 32];
    match rt.fill_bytes(&mut seed) {
        Ok(()) => Some(seed),
        Err(_) => None,
    }
}
