//! Lists of locators and parts of floods, to the end of a line.

ghost use Rattle.std.specs.Prelude.{◌≡◌, ◌<◌, length, OnOk};
ghost use Rattle.grasp_text.specs.Grammar.{answers_at, flood_part_at, flood_parts_at, final_objective_at};
ghost use Rattle.grasp_text.specs.Reading.{Reads};

use crate::fault::WordFault;
use crate::parts::{read_locator, read_objective, read_optional_locator};
use crate::words::Words;
use grasp_types::{FloodPart, FloodParts, Locator, Locators, Objective};
use std::alloc::Global;

/// Takes one or more locators and perhaps an objective, to the end of the line.
#[tactic(auto, unfolding(crate::specs::Grammar::answers_at))]
pub(crate) fn read_answers(
    alloc: Global,
    words: &mut Words<'_>,
) -> Result<(Locators, Option<Objective>), WordFault>
    ensures { Reads (λ x. x) result words.new (answers_at words.old) }
{
    let first = read_locator(alloc, words)?;
    let mut locators = Locators::of(alloc, first)?;
    while !words.is_over() {
        if words.is_next(b"obj") {
            let objective = read_last_objective(alloc, words)?;
            return Ok((locators, Some(objective)));
        }
        let next = read_locator(alloc, words)?;
        locators.push(next)?;
    }
    Ok((locators, None))
}

/// Takes an objective, behind which nothing stands.
fn read_last_objective(alloc: Global, words: &mut Words<'_>) -> Result<Objective, WordFault>
    ensures { Reads (λ o. o) result words.new (final_objective_at words.old) }
{
    let objective = read_objective(alloc, words)?;
    words.end()?;
    Ok(objective)
}

/// Takes a part of a flood: an objective, and a locator or `none`.
#[tactic(auto, unfolding(crate::specs::Grammar::flood_part_at))]
fn read_flood_part(alloc: Global, words: &mut Words<'_>) -> Result<FloodPart, WordFault>
    ensures { Reads (λ p. p) result words.new (flood_part_at words.old) }
{
    let objective = read_objective(alloc, words)?;
    let locator = read_optional_locator(alloc, words)?;
    Ok(FloodPart { objective, locator })
}

/// Takes one or more parts of a flood, to the end of the line.
#[tactic(auto, unfolding(crate::specs::Grammar::flood_parts_at))]
pub(crate) fn read_flood_parts(
    alloc: Global,
    words: &mut Words<'_>,
) -> Result<FloodParts, WordFault>
    ensures { Reads (λ p. p) result words.new (flood_parts_at words.old) }
{
    let first = read_flood_part(alloc, words)?;
    let mut parts = FloodParts::of(alloc, first)?;
    while !words.is_over() {
        let next = read_flood_part(alloc, words)?;
        parts.push(next)?;
    }
    Ok(parts)
}
