//! The lines of a text.

ghost use Rattle.std.specs.Prelude.{◌≡◌, ◌≢◌, ◌↔◌, ◌<◌, ◌∷◌, [], IsTrue, bytes_eq, length};
ghost use Rattle.grasp_audit.specs.Splits.{IsCut};
ghost use Rattle.grasp_script.specs.Headers.{start_words};
ghost use Rattle.grasp_script.specs.Scripts.{text_lines};
ghost use Rattle.grasp_text.specs.Words.{words_of};

use memchr::memchr;

/// The first line, without its line feed, and what comes behind it.
#[tactic(auto, using(grasp_script::proofs::Splitting::splitting))]
pub(crate) fn split_line(text: &[u8]) -> (&[u8], &[u8])
    requires { text.now ≢ [] }
    ensures first { text_lines text.now ≡ result.0.now ∷ text_lines result.1.now }
    ensures cut { IsCut text.now result.0.now result.1.now }
    ensures less { length result.1.now < length text.now }
{
    match memchr(b'\n', text) {
        Some(end) => (&text[..end], &text[end + 1..]),
        None => (text, &[]),
    }
}

/// Whether two texts have the same bytes.
pub(crate) fn are_same(one: &[u8], other: &[u8]) -> bool
    ensures { result ≡ bytes_eq one.now other.now }
{
    one == other
}

/// Whether a line ends a header.
pub(crate) fn is_start(line: &[u8]) -> bool
    ensures { IsTrue result ↔ (words_of line.now ≡ start_words) }
{
    are_same(line, b"start".as_slice())
}
