//! Lower-case hexadecimal digits, two for each byte.

ghost use Rattle.std.specs.Prelude.{◌≡◌, ℕ, List, true, false, ◌<◌, ◌≤◌, ◌*◌, length, take, IfSome, IfNone};
ghost use Rattle.hex.specs.Hex.{IsBytes, encode_lower};
ghost use Rattle.grasp_text.specs.Reading.{digit_of, AreDigitsOf};

/// For each byte the value of this lower-case hexadecimal digit; 99 for a byte that is none.
const DIGIT_VALUES: [u8; 256] = [
    99, 99, 99, 99, 99, 99, 99, 99, 99, 99, 99, 99, 99, 99, 99, 99, 99, 99, 99, 99, 99, 99, 99, 99,
    99, 99, 99, 99, 99, 99, 99, 99, 99, 99, 99, 99, 99, 99, 99, 99, 99, 99, 99, 99, 99, 99, 99, 99,
    0, 1, 2, 3, 4, 5, 6, 7, 8, 9, 99, 99, 99, 99, 99, 99, 99, 99, 99, 99, 99, 99, 99, 99, 99, 99,
    99, 99, 99, 99, 99, 99, 99, 99, 99, 99, 99, 99, 99, 99, 99, 99, 99, 99, 99, 99, 99, 99, 99, 10,
    11, 12, 13, 14, 15, 99, 99, 99, 99, 99, 99, 99, 99, 99, 99, 99, 99, 99, 99, 99, 99, 99, 99, 99,
    99, 99, 99, 99, 99, 99, 99, 99, 99, 99, 99, 99, 99, 99, 99, 99, 99, 99, 99, 99, 99, 99, 99, 99,
    99, 99, 99, 99, 99, 99, 99, 99, 99, 99, 99, 99, 99, 99, 99, 99, 99, 99, 99, 99, 99, 99, 99, 99,
    99, 99, 99, 99, 99, 99, 99, 99, 99, 99, 99, 99, 99, 99, 99, 99, 99, 99, 99, 99, 99, 99, 99, 99,
    99, 99, 99, 99, 99, 99, 99, 99, 99, 99, 99, 99, 99, 99, 99, 99, 99, 99, 99, 99, 99, 99, 99, 99,
    99, 99, 99, 99, 99, 99, 99, 99, 99, 99, 99, 99, 99, 99, 99, 99, 99, 99, 99, 99, 99, 99, 99, 99,
    99, 99, 99, 99, 99, 99, 99, 99, 99, 99, 99, 99, 99, 99,
];

/// The value of a lower-case hexadecimal digit.
pub(crate) fn digit_value(digit: u8) -> Option<u8>
    ensures value { result ≡ digit_of digit }
    ensures small { IfSome result (λ v. v < 16) }
{
    let value = DIGIT_VALUES[digit as usize];
    if value < 16 { Some(value) } else { None }
}

/// The byte of two digits, or `None`.
fn byte_of_digits(high: u8, low: u8) -> Option<u8>
    ensures found { IfSome result (λ b. AreDigitsOf high low b) }
    ensures small { IfSome result (λ b. b < 256) }
    ensures none { IfNone result ((b : ℕ) → b < 256 → ¬ AreDigitsOf high low b) }
{
    let high = digit_value(high)?;
    let low = digit_value(low)?;
    Some(high * 16 + low)
}

/// Writes the bytes of the digits, or returns false where they are the digits of no bytes.
pub(crate) fn read_digits(digits: &[u8], out: &mut [u8]) -> bool
    requires { length digits.now ≡ 2 * length out.old }
    ensures found { result ≡ true → digits.now ≡ encode_lower out.new }
    ensures fits { IsBytes out.new }
    ensures none { result ≡ false → (bytes : List ℕ) → IsBytes bytes → ¬ (digits.now ≡ encode_lower bytes) }
{
    for i in 0..out.len() {
        match byte_of_digits(digits[2 * i], digits[2 * i + 1]) {
            Some(byte) => out[i] = byte,
            None => return false,
        }
    }
    true
}

/// Writes the bytes of the digits at the front, at most as many as there is room for, and tells how many.
pub fn front_bytes(digits: &[u8], out: &mut [u8]) -> usize
    ensures room { result ≤ length out.new }
    ensures inside { 2 * result ≤ length digits.now }
    ensures digits { take (2 * result) digits.now ≡ encode_lower (take result out.new) }
    ensures fits { IsBytes out.new }
{
    let most = out.len().min(digits.len() / 2);
    let mut count = 0;
    while count < most {
        match byte_of_digits(digits[2 * count], digits[2 * count + 1]) {
            Some(byte) => out[count] = byte,
            None => break,
        }
        count += 1;
    }
    count
}
