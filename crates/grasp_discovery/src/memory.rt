//! Remembered discoveries.

ghost use Rattle.std.specs.Prelude.{◌≡◌, ◌≤◌, All, IfOk};
ghost use Rattle.grasp_discovery.specs.Discoveries.{memory_from};

use crate::answers::Cause;
use crate::topic::{Topic, kind_of};
use grasp_cbor::OutOfMemory;
use grasp_types::{Objective, Origin, reading_after};
use indexmap::IndexMap;

/// A discovery is remembered for so many milliseconds.
const MEMORY: u64 = 60_000;

/// What is remembered of a discovery, beside its number and its initiator.
#[derive(Debug, Drop)]
pub(crate) struct Memory {
    pub(crate) cause: Cause,
    /// What it looks for.
    pub(crate) topic: Topic,
    /// The reading at which it is forgotten.
    pub(crate) end: u64,
}

/// What is remembered of each discovery.
pub(crate) type Memories = IndexMap<Origin, Memory>;

/// What is remembered of a discovery of this objective that comes now.
pub(crate) fn memory_from(
    now: u64,
    cause: Cause,
    objective: &Objective,
) -> Result<Memory, OutOfMemory>
    ensures { IfOk result (λ memory. memory ≡ memory_from now cause objective.now) }
{
    let topic = Topic {
        name: objective.name.copy()?,
        kind: kind_of(objective.flags),
    };
    Ok(Memory {
        cause,
        topic,
        end: reading_after(now, MEMORY),
    })
}

/// The least end of these, or the greatest reading where there is none.
pub(crate) fn earliest_remembered(memories: &Memories) -> u64
    ensures { All (λ memory. result ≤ memory.1.end) memories.now.entries }
{
    let mut least = u64::MAX;
    for i in 0..memories.len() {
        let Some((_origin, memory)) = memories.get_index(i) else {
            unreachable!()
        };
        least = least.min(memory.end);
    }
    least
}
