//! The bytes of a message straight from its line. Where a word isn't what most writers write there is no answer, and nothing is said
//! of the line.

ghost use Rattle.std.specs.Prelude.{IfSome};
ghost use Rattle.grasp_quick.specs.Packed.{PacksLine, IsPackedLine};

mod front;
mod kinds;
mod locators;
mod parts;
mod places;
mod words;

use crate::packed::kinds::{
    pack_discovery, pack_end, pack_flood, pack_invalid, pack_negotiate, pack_noop, pack_req_neg,
    pack_req_syn, pack_response, pack_synch, pack_wait,
};
use crate::room::Room;

/// Appends the shortest encoding of the message whose line begins the text, and answers what stands behind the line. After a `None`
/// the room may hold a part of a message.
pub fn quick_bytes<'a>(text: &'a [u8], bytes: &mut Room) -> Option<&'a [u8]>
    ensures { IfSome result (λ rest. PacksLine text.now rest.now bytes.old bytes.new) }
{
    match text {
        [b'f', ..] => pack_flood(text, bytes),
        [b'n', b'e', ..] => pack_negotiate(text, bytes),
        [b'e', ..] => pack_end(text, bytes),
        [b'w', ..] => pack_wait(text, bytes),
        [b's', ..] => pack_synch(text, bytes),
        [b'd', ..] => pack_discovery(text, bytes),
        [b'i', ..] => pack_invalid(text, bytes),
        [b'n', ..] => pack_noop(text, bytes),
        [b'r', _, b's', ..] => pack_response(text, bytes),
        [b'r', _, _, _, _, _, _, _, b'n', ..] => pack_req_neg(text, bytes),
        [b'r', ..] => pack_req_syn(text, bytes),
        _ => None,
    }
}

/// Puts into the room, in place of what it holds, the shortest encoding of the message whose line this is, where it has at most so
/// many bytes. After a `None` the room may hold anything.
pub fn packed_line(line: &[u8], limit: u32, bytes: &mut Room) -> Option<()>
    ensures { IfSome result (λ _. IsPackedLine limit line.now bytes.new) }
{
    bytes.clear();
    let rest = quick_bytes(line, bytes)?;
    if rest.is_empty() && bytes.len() <= limit as usize {
        Some(())
    } else {
        None
    }
}
