//! The line of a message straight from its bytes, in which arrays and strings have a definite length and values stand in their
//! shortest encoding. Where anything else stands there is no answer, and nothing is said of the bytes.

ghost use Rattle.std.specs.Prelude.{IfSome};
ghost use Rattle.grasp_quick.specs.Spelled.{SpellsLine, ShowsFront};

use crate::kinds::spell_kind;
use crate::room::Room;
use grasp_cbor::{read_array_head, read_unsigned};

/// Appends the line of the message that leads the bytes, without a line feed, and answers what follows the message. After a `None`
/// the room may hold a part of a line.
pub fn quick_line<'a>(bytes: &'a [u8], line: &mut Room) -> Option<&'a [u8]>
    ensures { IfSome result (λ rest. SpellsLine bytes.now rest.now line.old line.new) }
{
    let (count, rest) = read_array_head(bytes)?;
    let (kind, rest) = read_unsigned(rest)?;
    spell_kind(count, kind, rest, line)
}

/// Puts into the room, in place of what it holds, the line of the message that begins the bytes, of which it may have `limit`, and a
/// line feed; answers how many bytes the message has. After a `None` the room may hold anything.
pub fn front_line(bytes: &[u8], limit: u32, line: &mut Room) -> Option<usize>
    ensures { IfSome result (λ used. ShowsFront limit bytes.now used line.new) }
{
    line.clear();
    let most = bytes.len().min(limit as usize);
    let there = &bytes[..most];
    let rest = quick_line(there, line)?;
    line.put(b"\n")?;
    Some(there.len() - rest.len())
}
