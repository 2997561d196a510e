//! The lines of a table, and what each comes to.

ghost use Rattle.std.specs.Prelude.{IfOk};
ghost use Rattle.grasp_tests_turns.specs.Benches.{StandsForTwo};

use crate::bench::{first_prefix, open};
use crate::run::run_step;
use crate::step::step_of;
use grasp_model_network::WorldStop;
use grasp_simulator::World;
use grasp_types::Prefix;
use std::alloc::{AllocError, Global};

/// Lines in order.
pub type Lines = Vec<String>;

/// Runs the rows of a table.
pub fn run_table(alloc: Global, text: &str) -> Result<Lines, AllocError> {
    let mut lines = Vec::new(alloc);
    let Some(prefix) = first_prefix() else {
        return Ok(lines);
    };
    let Ok(mut world) = open(alloc) else {
        return Ok(lines);
    };
    for line in text.lines() {
        if line.starts_with("row ") {
            let Ok(next) = open(alloc) else {
                return Ok(lines);
            };
            world = next;
            lines.push(String::from_str(alloc, line)?)?;
        } else {
            let word = line_word(alloc, &mut world, prefix, line);
            lines.push(format!(in alloc; "{line}: {word}")?)?;
        }
    }
    Ok(lines)
}

/// What a line comes to.
fn line_word(alloc: Global, world: &mut World, prefix: Prefix, line: &str) -> &'static str
    requires { StandsForTwo world.old }
    ensures { StandsForTwo world.new }
{
    let Some(step) = step_of(line) else {
        return "no step";
    };
    match run_step(alloc, world, prefix, step) {
        Ok(word) => word,
        Err(WorldStop::OutOfMemory) => "out of memory",
        Err(WorldStop::TooMuch) => "too much",
    }
}
