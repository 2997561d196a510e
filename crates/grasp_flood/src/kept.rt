//! What is kept of one part of a flood.

ghost use Rattle.std.specs.Prelude.{◌≡◌, ◌≤◌, IfSome, IfOk};
ghost use Rattle.grasp_flood.specs.Floods.{end_of, entry_of, is_after, later_end, after_renewal, read_of};

use crate::FloodKey;
use grasp_cbor::OutOfMemory;
use grasp_types::{
    Flags, FloodPart, FloodRead, Locator, Objective, Origin, Plain, Value, reading_after,
};

/// What is kept of one part of a flood, beside its key.
#[derive(Debug, Drop)]
pub struct FloodKept {
    /// The session number of the flood that told it.
    pub session: u32,
    pub flags: Flags,
    pub loops: u8,
    pub value: Option<Value>,
    pub locator: Option<Locator>,
    /// The reading at which it ends, or `None` where it never does.
    pub end: Option<u64>,
}

/// When what has this lifetime from now on ends. With a lifetime of 0 it never does.
pub(crate) fn end_of(now: u64, ttl: u32) -> Option<u64>
    ensures { result ≡ end_of now ttl }
{
    if ttl == 0 {
        None
    } else {
        Some(reading_after(now, u64::from(ttl)))
    }
}

/// The lesser of a reading and an end.
pub(crate) fn earlier(reading: u64, end: Option<u64>) -> u64
    ensures reading { result ≤ reading }
    ensures end { IfSome end (λ last. result ≤ last) }
{
    match end {
        Some(end) => reading.min(end),
        None => reading,
    }
}

/// The later of two ends.
fn later_end(a: Option<u64>, b: Option<u64>) -> Option<u64>
    ensures { result ≡ later_end a b }
{
    match (a, b) {
        (Some(a), Some(b)) => Some(a.max(b)),
        _ => None,
    }
}

/// What is kept of this part of a flood, and its key.
pub(crate) fn entry_of(
    flood: Origin,
    end: Option<u64>,
    part: &FloodPart,
) -> Result<(FloodKey, FloodKept), OutOfMemory>
    ensures { IfOk result (λ entry. entry ≡ entry_of flood end part.now) }
{
    let FloodPart { objective, locator } = part.copy()?;
    let Objective {
        name,
        flags,
        loops,
        value,
    } = objective;
    let key = FloodKey {
        name,
        initiator: flood.initiator,
    };
    let kept = FloodKept {
        session: flood.session,
        flags,
        loops,
        value,
        locator,
        end,
    };
    Ok((key, kept))
}

/// What an entry tells whoever asks.
pub(crate) fn read_of(key: &FloodKey, kept: &FloodKept) -> Result<FloodRead, OutOfMemory>
    ensures { IfOk result (λ read. read ≡ read_of (key.now, kept.now)) }
{
    let objective = Objective {
        name: key.name.copy()?,
        flags: kept.flags,
        loops: kept.loops,
        value: kept.value.copy()?,
    };
    Ok(FloodRead {
        initiator: key.initiator,
        objective,
        locator: kept.locator.copy()?,
    })
}

impl FloodKept {
    /// Whether it ends after this reading, or never.
    pub(crate) fn is_after(&self, now: u64) -> bool
        ensures { result ≡ is_after now self.now.end }
    {
        match self.end {
            Some(end) => now < end,
            None => true,
        }
    }

    /// Moves the end to this one, where that is later and this flood made the entry of this key.
    pub(crate) fn renew(&mut self, key: &FloodKey, flood: Origin, end: Option<u64>)
        ensures { (key.now, self.new) ≡ after_renewal flood end (key.now, self.old) }
    {
        if flood.session == self.session && flood.initiator == key.initiator {
            self.end = later_end(self.end, end);
        }
    }
}
