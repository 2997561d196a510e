//! Spelling the lists of messages.

ghost use Rattle.std.specs.Prelude.{◌≡◌, ◌<◌, ◌^◌, ◌∷◌, ◌++◌, map, length, OnOk};
ghost use Rattle.grasp_cbor.specs.DataItem.{unsigned, array_of};
ghost use Rattle.grasp_cbor.specs.Shortest.{shortest};
ghost use Rattle.grasp_types.specs.Address.{locator_item};
ghost use Rattle.grasp_types.specs.Message.{answer_items, flood_part_item, AreLocators, IsAnswer, IsFloodPart, AreFloodParts};
ghost use Rattle.grasp_wire.specs.Parts.{shortest_parts};
ghost use Rattle.grasp_wire.specs.Put.{Puts};

use crate::writing::parts::{put_locator, put_locator_or_empty, put_objective};
use crate::writing::put::{Full, Put};
use grasp_types::{Answer, FloodPart, FloodParts, Locators};

/// Puts the locators side by side.
#[tactic(auto, using(crate::proofs::Putting::putting))]
fn put_locators<P: Put>(locators: &Locators, out: &mut P) -> Result<(), Full>
    ensures puts { Puts P.Keeps P.Counts (P.place out.old) (P.place out.new)
        (shortest_parts (map locator_item locators.now)) result }
    ensures range { OnOk result (AreLocators locators.now) }
{
    for locator in locators.slice() {
        put_locator(locator, out)?;
    }
    Ok(())
}

/// How many items an answer has in its message.
pub(crate) fn count_of_answer(answer: &Answer) -> u64
    ensures value { result ≡ length (answer_items answer.now) }
    ensures few { result < 2 ^ 63 }
{
    match answer {
        Answer::Locators(locators) => locators.len(),
        Answer::Divert(_) => 1,
    }
}

/// Puts the items of an answer.
#[tactic(auto, using(crate::proofs::Putting::putting))]
pub(crate) fn put_answer<P: Put>(answer: &Answer, out: &mut P) -> Result<(), Full>
    ensures puts { Puts P.Keeps P.Counts (P.place out.old) (P.place out.new)
        (shortest_parts (answer_items answer.now)) result }
    ensures range { OnOk result (IsAnswer answer.now) }
{
    match answer {
        Answer::Locators(locators) => put_locators(locators, out),
        Answer::Divert(locators) => put_divert(locators, out),
    }
}

/// Puts a divert.
#[tactic(auto, using(crate::proofs::Putting::putting))]
fn put_divert<P: Put>(locators: &Locators, out: &mut P) -> Result<(), Full>
    ensures puts { Puts P.Keeps P.Counts (P.place out.old) (P.place out.new)
        (shortest (array_of (unsigned 100 ∷ map locator_item locators.now))) result }
    ensures range { OnOk result (AreLocators locators.now) }
{
    out.array_head(locators.len() + 1)?;
    out.unsigned(100)?;
    put_locators(locators, out)
}

/// Puts an objective of a flood and its locator.
#[tactic(auto, using(crate::proofs::Putting::putting))]
pub(crate) fn put_flood_part<P: Put>(part: &FloodPart, out: &mut P) -> Result<(), Full>
    ensures puts { Puts P.Keeps P.Counts (P.place out.old) (P.place out.new)
        (shortest (flood_part_item part.now)) result }
    ensures range { OnOk result (P.Keeps → IsFloodPart part.now) }
{
    out.array_head(2)?;
    put_objective(&part.objective, out)?;
    put_locator_or_empty(&part.locator, out)
}

/// Puts the parts of a flood side by side.
#[tactic(auto, using(crate::proofs::Putting::putting))]
pub(crate) fn put_flood_parts<P: Put>(parts: &FloodParts, out: &mut P) -> Result<(), Full>
    ensures puts { Puts P.Keeps P.Counts (P.place out.old) (P.place out.new)
        (shortest_parts (map flood_part_item parts.now)) result }
    ensures range { OnOk result (P.Keeps → AreFloodParts parts.now) }
{
    for part in parts.slice() {
        put_flood_part(part, out)?;
    }
    Ok(())
}
