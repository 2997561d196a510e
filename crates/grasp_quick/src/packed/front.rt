//! What stands at the front of a line.

ghost use Rattle.std.specs.Prelude.{◌≡◌, ◌<◌, ◌≤◌, ◌++◌, true, length, get_or, IfSome, decimal};

use grasp_text::front_digits;

/// What follows these bytes, where they stand there.
#[inline(always)]
pub(crate) fn behind<'a>(word: &[u8], line: &'a [u8]) -> Option<&'a [u8]>
    ensures { IfSome result (λ rest. line.now ≡ word.now ++ rest.now) }
{
    if line.len() < word.len() {
        return None;
    }
    let (front, rest) = line.split_at(word.len());
    for i in 0..word.len() {
        if front[i] != word[i] {
            return None;
        }
    }
    Some(rest)
}

/// The number whose word begins the line, and what follows.
#[inline(always)]
pub(crate) fn front_number(line: &[u8]) -> Option<(u64, &[u8])>
    ensures { IfSome result (λ p. line.now ≡ decimal p.0 ++ p.1.now) }
{
    let (number, end) = front_digits(line);
    if end == 0 {
        return None;
    }
    if !is_shortest(end, line) {
        return None;
    }
    Some((number, &line[end..]))
}

/// Whether so many digits have no zero before others.
#[inline(always)]
fn is_shortest(end: usize, digits: &[u8]) -> bool
    requires some { 0 < end }
    requires inside { end ≤ length digits.now }
    ensures { result ≡ true → get_or digits.now 0 0 ≡ 48 → end ≡ 1 }
{
    end == 1 || digits[0] != b'0'
}
