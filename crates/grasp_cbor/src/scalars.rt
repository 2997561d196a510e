//! Floats and simple values (RFC 8949, section 3.3).

ghost use Rattle.std.specs.Prelude.{◌≡◌, IfSome, IfNone};
ghost use Rattle.grasp_cbor.specs.Simple.{IsSimple};

use std::marker::Model;

/// A float, as its width and its bits. What number the bits mean is left to the reader.
#[derive(Clone, Copy, Debug, PartialEq, Eq)]
pub enum FloatBits {
    /// 16 bits.
    Half(u16),
    /// 32 bits.
    Single(u32),
    /// 64 bits.
    Double(u64),
}

/// The number of a simple value: 0 to 23, or 32 to 255.
#[derive(Clone, Copy, Debug, PartialEq, Eq)]
pub struct SimpleValue {
    number: u8,
}

impl Model for SimpleValue {
    ghost use Rattle.std.specs.Prelude.{ℕ};
    ghost use Rattle.grasp_cbor.specs.Simple.{IsSimple};

    ghost Value = { ℕ };

    ghost view = { λ a. a.number };

    ghost invariant = { λ a. IsSimple a.number };

    ghost inverse = { λ n. record { number = n } };
}

impl SimpleValue {
    /// The simple value of this number, or `None` for 24 to 31, which no simple value has.
    pub fn of(number: u8) -> Option<SimpleValue>
        ensures value { IfSome result (λ r. r ≡ number) }
        ensures simple { IfSome result (λ _. IsSimple number) }
        ensures none { IfNone result (¬ IsSimple number) }
    {
        if number < 24 || number >= 32 {
            Some(SimpleValue { number })
        } else {
            None
        }
    }

    /// The number.
    pub fn number(&self) -> u8
        ensures value { result ≡ self.now }
        ensures simple { IsSimple result }
    {
        self.number
    }
}
