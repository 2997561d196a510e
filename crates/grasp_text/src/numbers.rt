//! Decimal numbers as words.

ghost use Rattle.std.specs.Prelude.{◌≡◌, ℕ, ◌<◌, ◌^◌, ◌+◌, ◌-◌, ◌*◌, ◌++◌, ◌∷◌, [], ◌≤◌, length, take, IfSome, IfNone, OnOk, OnErr, decimal, string_bytes};
ghost use Rattle.std.specs.Str.Parse.{AllDigits, digits_value};
ghost use Rattle.grasp_cbor.specs.Extends.{Extends};
ghost use Rattle.grasp_text.specs.Reading.{number_of};
ghost use Rattle.grasp_text.specs.Words.{spaced};

use grasp_cbor::OutOfMemory;
use itoa::Buffer;

/// So many decimal digits surely fit 64 bits.
const MOST_DIGITS: usize = 19;

/// Below this, one more digit surely fits 64 bits.
const SURELY_FITS: u64 = u64::MAX / 10;

/// The number of a word, which is at most `most`: decimal digits with no leading zero, or `None`.
pub fn number(word: &[u8], most: u64) -> Option<u64>
    ensures found { IfSome result (λ n. word.now ≡ decimal n) }
    ensures within { IfSome result (λ n. n ≤ most) }
    ensures none { IfNone result ((n : ℕ) → n ≤ most → ¬ (word.now ≡ decimal n)) }
    ensures value { result ≡ number_of most word.now }
{
    read_number(word, most)
}

/// The number of a word, which is at most `most`, or `None`.
fn read_number(word: &[u8], most: u64) -> Option<u64>
    ensures value { result ≡ number_of most word.now }
    ensures within { IfSome result (λ n. n ≤ most) }
{
    let n = number_of_digits(word)?;
    if n <= most { Some(n) } else { None }
}

/// The number below 2^64 of a word, or `None`.
fn number_of_digits(word: &[u8]) -> Option<u64>
    ensures some { IfSome result (λ n. word.now ≡ decimal n) }
    ensures none { IfNone result ((n : ℕ) → n < 2 ^ 64 → ¬ (word.now ≡ decimal n)) }
{
    if word.is_empty() {
        return None;
    }
    if word.len() > 1 && word[0] == b'0' {
        return None;
    }
    value_of_digits(word)
}

/// The value of the decimal digits at the front, of which it reads at most 19, and how many it read.
pub fn front_digits(bytes: &[u8]) -> (u64, usize)
    ensures inside { result.1 ≤ length bytes.now }
    ensures digits { AllDigits 10 (take result.1 bytes.now) }
    ensures value { result.0 ≡ digits_value 10 (take result.1 bytes.now) }
{
    let mut value = 0;
    let mut end = 0;
    while end < bytes.len() && end < MOST_DIGITS {
        let digit = bytes[end].wrapping_sub(b'0');
        if digit > 9 {
            break;
        }
        value = value * 10 + u64::from(digit);
        end += 1;
    }
    (value, end)
}

/// The value of decimal digits, or `None` where another byte is among them or the value is too large.
fn value_of_digits(word: &[u8]) -> Option<u64>
    ensures digits { IfSome result (λ n. AllDigits 10 word.now) }
    ensures value { IfSome result (λ n. n ≡ digits_value 10 word.now) }
    ensures small { IfSome result (λ n. n < 2 ^ 64) }
    ensures none { IfNone result ((n : ℕ) → n < 2 ^ 64 → ¬ (word.now ≡ decimal n)) }
{
    let mut value = 0;
    for digit in word {
        value = with_digit(value, *digit)?;
    }
    Some(value)
}

/// The value of the digits so far with one more behind them.
fn with_digit(value: u64, digit: u8) -> Option<u64>
    ensures some { IfSome result (λ n. (48 ≤ digit) × (digit < 58) × (n ≡ value * 10 + (digit - 48))) }
    ensures small { IfSome result (λ n. n < 2 ^ 64) }
    ensures none { IfNone result (48 ≤ digit → digit < 58 → 2 ^ 64 ≤ value * 10 + (digit - 48)) }
{
    if digit < b'0' || digit > b'9' {
        return None;
    }
    let digit = u64::from(digit - b'0');
    if value < SURELY_FITS {
        return Some(value * 10 + digit);
    }
    value.checked_mul(10)?.checked_add(digit)
}

/// Appends a blank and a decimal number. After an `Err` a part of them may have been appended.
#[tactic(auto, using(crate::proofs::NumberWords::small_number))]
pub fn push_number(out: &mut String, n: u64) -> Result<(), OutOfMemory>
    ensures text { OnOk result (string_bytes out.new ≡ string_bytes out.old ++ spaced (decimal n ∷ [])) }
    ensures err { OnErr result (Extends (string_bytes out.old) (string_bytes out.new)) }
{
    out.push(' ')?;
    if n < 10 {
        out.push(char::from(b'0' + n as u8))?;
        return Ok(());
    }
    let mut buffer = Buffer::new();
    out.push_str(buffer.format(n))?;
    Ok(())
}
