//! Writing lines.

ghost use Rattle.std.specs.Prelude.{◌≡◌, ◌++◌, ◌∷◌, [], OnOk, map, decimal, string_bytes};
ghost use Rattle.grasp_script_draws.specs.Generator.{line, lines_text};

use grasp_cbor::OutOfMemory;
use grasp_text::push_number;

/// Appends a line: a word and numbers, with one blank between two.
pub(crate) fn push_line(out: &mut String, word: &str, numbers: &[u64]) -> Result<(), OutOfMemory>
    ensures { OnOk result (string_bytes out.new ≡ string_bytes out.old ++ lines_text (line word.now (map decimal numbers.now) ∷ [])) }
{
    out.push_str(word)?;
    for number in numbers {
        push_number(out, *number)?;
    }
    out.push_str("\n")?;
    Ok(())
}
