//! Prefixes of addresses.

ghost use Rattle.std.specs.Prelude.{◌≡◌, ◌≤◌, IfSome, IfNone};
ghost use Rattle.grasp_types.specs.Prefix.{IsPrefix, size_of};

use crate::Plain;
use std::marker::Model;

/// The addresses whose first `length` bits are those of `address` (RFC 4291, section 2.3).
///
/// The length is 1 to 128, and no bit of the address past it is set.
#[derive(Clone, Copy, Debug, PartialEq, Eq)]
pub struct Prefix {
    address: u128,
    bits: u8,
}

impl Model for Prefix {
    ghost use Rattle.grasp_types.specs.Prefix.{AddressBlock, IsPrefix};

    ghost Value = { AddressBlock };

    ghost view = { λ p. record { address = p.address; length = p.bits } };

    ghost invariant = { λ p. IsPrefix p.address p.bits };

    ghost inverse = { λ b. record { address = b.address; bits = b.length } };
}

impl Prefix {
    /// The prefix of this first address and length in bits.
    ///
    /// `None` where the length is 0 or above 128, or a bit of the address past the length is set.
    pub fn of(address: u128, length: u8) -> Option<Prefix>
        ensures some { IfSome result (λ p. p ≡ record { address = address; length = length }) }
        ensures valid { IfSome result (λ _. IsPrefix address length) }
        ensures none { IfNone result (¬ IsPrefix address length) }
    {
        if length == 0 || length > 128 {
            return None;
        }
        if address % address_count(length) != 0 {
            return None;
        }
        Some(Prefix {
            address,
            bits: length,
        })
    }

    /// The first address.
    pub fn address(&self) -> u128
        ensures value { result ≡ self.now.address }
        ensures valid { IsPrefix self.now.address self.now.length }
    {
        self.address
    }

    /// How many leading bits are fixed, 1 to 128.
    pub fn length(&self) -> u8
        ensures value { result ≡ self.now.length }
        ensures valid { IsPrefix self.now.address self.now.length }
    {
        self.bits
    }
}

/// How many addresses have the same first `length` bits.
fn address_count(length: u8) -> u128
    requires least { 1 ≤ length }
    requires most { length ≤ 128 }
    ensures { result ≡ size_of length }
{
    1u128 << (128 - length)
}

impl Plain for Prefix {
    ghost use Rattle.std.proofs.Common.{rules};

    ghost clones_are_same = { Prim.search rules };
}
