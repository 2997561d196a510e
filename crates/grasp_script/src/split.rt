//! The lines of a text, one after another.

ghost use Rattle.std.specs.Prelude.{◌≡◌, ◌∷◌, [], ◌<◌, length, IfSome, IfNone};
ghost use Rattle.grasp_script.specs.Reads.{IsBehind};
ghost use Rattle.grasp_script.specs.Scripts.{text_lines};

use memchr::memchr;

/// The first line of a text, without its line end, and the text behind it, or `None` where no line is left.
#[tactic(auto, using(crate::proofs::Splitting::splitting))]
pub(crate) fn first_line(text: &[u8]) -> Option<(&[u8], &[u8])>
    ensures line { IfSome result (λ x. text_lines text.now ≡ x.0.now ∷ text_lines x.1.now) }
    ensures shorter { IfSome result (λ x. length x.1.now < length text.now) }
    ensures behind { IfSome result (λ x. IsBehind text.now x.1.now) }
    ensures none { IfNone result (text_lines text.now ≡ []) }
{
    if text.is_empty() {
        return None;
    }
    match memchr(b'\n', text) {
        Some(at) => Some((&text[..at], &text[at + 1..])),
        None => Some((text, &[])),
    }
}
