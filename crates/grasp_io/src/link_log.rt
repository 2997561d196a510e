//! What links count and nobody else tells.
use crate::{Counted, LinkFault};
use std::net::SocketAddr;

// At most one stranger is told in so many milliseconds.
const PAUSE: u64 = 1000;

/// What of the links' faults and strangers was told already.
#[derive(Clone, Copy, Debug, PartialEq, Eq)]
pub struct LinkLog {
    faults: u64,
    failed_dials: u64,
    strangers: u64,
    // When a stranger may be told again. Milliseconds.
    from: u64,
}

impl LinkLog {
    /// Nothing was told yet.
    pub fn new() -> LinkLog {
        LinkLog {
            faults: 0,
            failed_dials: 0,
            strangers: 0,
            from: 0,
        }
    }

    /// What failed last, where something failed since the last such question.
    pub fn fault<C: Counted>(&mut self, links: &C) -> Option<LinkFault> {
        let counters = links.counters();
        if (self.faults, self.failed_dials) == (counters.faults, counters.failed_dials) {
            return None;
        }
        self.faults = counters.faults;
        self.failed_dials = counters.failed_dials;
        links.last_fault()
    }

    /// Who sent the last datagram of a stranger, where one came since the last one that was told, and that is a second ago. `now` is a
    /// reading of a clock, in milliseconds.
    pub fn stranger<C: Counted>(&mut self, links: &C, now: u64) -> Option<SocketAddr> {
        let strangers = links.counters().strangers;
        if self.strangers == strangers || now < self.from {
            return None;
        }
        self.strangers = strangers;
        self.from = now.saturating_add(PAUSE);
        links.last_stranger()
    }
}
