//! The lines of a text, one after another.

ghost use Rattle.std.specs.Prelude.{◌≡◌, ◌∷◌, ◌-◌, [], ◌<◌, length, take, IfSome, IfNone};
ghost use Rattle.grasp_script.specs.Scripts.{text_lines};
ghost use Rattle.grasp_script_parts.specs.Starting.{has_start};

use memchr::memchr;

/// The first line of a text, without its line end, and the text behind it, or `None` where no line is left.
#[tactic(auto, using(grasp_script::proofs::Splitting::splitting))]
pub fn first_line(text: &[u8]) -> Option<(&[u8], &[u8])>
    ensures line { IfSome result (λ x. text_lines text.now ≡ x.0.now ∷ text_lines x.1.now) }
    ensures shorter { IfSome result (λ x. length x.1.now < length text.now) }
    ensures none { IfNone result (text_lines text.now ≡ []) }
{
    if text.is_empty() {
        return None;
    }
    match memchr(b'\n', text) {
        Some(at) => Some((&text[..at], &text[at + 1..])),
        None => Some((text, &[])),
    }
}

/// Whether a header may have ended before the line of this number, from 1.
pub(crate) fn starts_before(text: &[u8], number: u64) -> bool
    ensures { result ≡ has_start (take (number - 1) (text_lines text.now)) }
{
    let mut rest = text;
    let mut next = 1;
    while next < number {
        let Some((line, behind)) = first_line(rest) else {
            return false;
        };
        if line == b"start".as_slice() {
            return true;
        }
        next += 1;
        rest = behind;
    }
    false
}
