//! Numbers, texts, values and objectives.

ghost use Rattle.std.specs.Prelude.{◌≡◌, ◌≤◌, ◌∷◌, [], IfSome, decimal};
ghost use Rattle.std.specs.Str.{IsUtf8};
ghost use Rattle.grasp_cbor.specs.DataItem.{unsigned, text_string};
ghost use Rattle.grasp_types.specs.Objective.{objective_item, IsObjective, IsValue};
ghost use Rattle.grasp_text.specs.Line.{text_word, value_word, objective_words};
ghost use Rattle.grasp_quick.specs.Spelled.{Spells, SpellsLast, SpellsLastObjective};

use crate::room::Room;
use grasp_cbor::{behind_shortest_item, read_array_head, read_text_string, read_unsigned};

/// A number that is at most so large.
#[inline(always)]
pub(crate) fn below<'a>(most: u32, bytes: &'a [u8], line: &mut Room) -> Option<&'a [u8]>
    ensures { IfSome result (λ rest. Spells unsigned (λ n. n ≤ most) (λ n. decimal n ∷ []) bytes.now rest.now line.old line.new) }
{
    let (number, rest) = read_unsigned(bytes)?;
    if number > u64::from(most) {
        return None;
    }
    line.put_number(number as u32)?;
    Some(rest)
}

/// A value in its shortest encoding.
pub(crate) fn spell_value<'a>(bytes: &'a [u8], line: &mut Room) -> Option<&'a [u8]>
    ensures { IfSome result (λ rest. Spells (λ v. v) IsValue (λ v. value_word v ∷ []) bytes.now rest.now line.old line.new) }
{
    let rest = behind_shortest_item(bytes, 13)?;
    let used = bytes.len() - rest.len();
    line.put(b" x")?;
    line.put_hex(&bytes[..used])?;
    Some(rest)
}

/// A text.
pub(crate) fn spell_text<'a>(bytes: &'a [u8], line: &mut Room) -> Option<&'a [u8]>
    ensures { IfSome result (λ rest. Spells text_string IsUtf8 (λ t. text_word t ∷ []) bytes.now rest.now line.old line.new) }
{
    let (text, rest) = read_text_string(bytes)?;
    line.put_text(text.as_bytes())?;
    Some(rest)
}

/// The last value of an array of so many parts, of which so many stand before it; or none where the array ends there.
pub(crate) fn spell_last_value<'a>(
    count: u64,
    before: u64,
    bytes: &'a [u8],
    line: &mut Room,
) -> Option<&'a [u8]>
    ensures { IfSome result (λ rest. SpellsLast count before bytes.now rest.now line.old line.new) }
{
    match count.checked_sub(before) {
        Some(0) => {
            line.put(b" -")?;
            Some(bytes)
        }
        Some(1) => spell_value(bytes, line),
        _ => None,
    }
}

/// An objective.
pub(crate) fn spell_objective<'a>(bytes: &'a [u8], line: &mut Room) -> Option<&'a [u8]>
    ensures { IfSome result (λ rest. Spells objective_item IsObjective objective_words bytes.now rest.now line.old line.new) }
{
    let (count, rest) = read_array_head(bytes)?;
    line.put(b" obj")?;
    let rest = spell_text(rest, line)?;
    let rest = below(15, rest, line)?;
    let rest = below(255, rest, line)?;
    spell_last_value(count, 3, rest, line)
}

/// The last objective of an array of so many parts, of which so many stand before it; or nothing where the array ends there.
pub(crate) fn spell_last_objective<'a>(
    count: u64,
    before: u64,
    bytes: &'a [u8],
    line: &mut Room,
) -> Option<&'a [u8]>
    ensures { IfSome result (λ rest. SpellsLastObjective count before bytes.now rest.now line.old line.new) }
{
    match count.checked_sub(before) {
        Some(0) => Some(bytes),
        Some(1) => spell_objective(bytes, line),
        _ => None,
    }
}
