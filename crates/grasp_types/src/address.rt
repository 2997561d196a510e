//! Addresses and locators (RFC 8990, section 2.9.5).

ghost use Rattle.std.specs.Prelude.{◌≡◌, ◌≢◌, length, IfSome, IfNone};
ghost use Rattle.std.specs.Int.{to_be_bytes, w32, w128};
ghost use Rattle.std.proofs.Common.{rules};
ghost use Rattle.grasp_types.specs.Address.{address_bytes, IsAddress, is_dialable};

use crate::{NonEmpty, Plain};
use grasp_cbor::Chars;

/// The address of a node, as a number.
#[derive(Clone, Copy, Debug, PartialEq, Eq, Hash)]
pub enum Address {
    /// An IPv4 address.
    V4(u32),
    /// An IPv6 address.
    V6(u128),
}

/// A transport protocol.
#[derive(Clone, Copy, Debug, PartialEq, Eq, Hash)]
pub enum Proto {
    /// Protocol number 6.
    Tcp,
    /// Protocol number 17.
    Udp,
}

/// Where something can be reached.
#[derive(Clone, Debug, Drop, PartialEq, Eq, Hash)]
pub enum Locator {
    /// An IPv6 address.
    V6 {
        address: u128,
        proto: Proto,
        port: u16,
    },
    /// An IPv4 address.
    V4 {
        address: u32,
        proto: Proto,
        port: u16,
    },
    /// A fully qualified domain name.
    Fqdn {
        name: Chars,
        proto: Proto,
        port: u16,
    },
    /// A uniform resource identifier.
    Uri {
        text: Chars,
        proto: Option<Proto>,
        port: Option<u16>,
    },
}

/// One or more locators.
pub type Locators = NonEmpty<Locator>;

impl Address {
    /// The address of these bytes, the most significant first, or `None` where they aren't 4 or 16.
    pub fn of_bytes(bytes: &[u8]) -> Option<Address>
        ensures some { IfSome result (λ a. address_bytes a ≡ bytes.now) }
        ensures valid { IfSome result IsAddress }
        ensures not_four { IfNone result (length bytes.now ≢ 4) }
        ensures not_sixteen { IfNone result (length bytes.now ≢ 16) }
    {
        match ipv4_of_bytes(bytes) {
            Some(address) => Some(Address::V4(address)),
            None => match ipv6_of_bytes(bytes) {
                Some(address) => Some(Address::V6(address)),
                None => None,
            },
        }
    }
}

/// The number of an IPv4 address of these bytes, the most significant first, or `None` where they aren't 4.
pub fn ipv4_of_bytes(bytes: &[u8]) -> Option<u32>
    ensures some { IfSome result (λ n. to_be_bytes w32 n ≡ bytes.now) }
    ensures none { IfNone result (length bytes.now ≢ 4) }
{
    match <[u8; 4]>::try_from(bytes) {
        Ok(bytes) => Some(u32::from_be_bytes(bytes)),
        Err(_) => None,
    }
}

/// The number of an IPv6 address of these bytes, the most significant first, or `None` where they aren't 16.
pub fn ipv6_of_bytes(bytes: &[u8]) -> Option<u128>
    ensures some { IfSome result (λ n. to_be_bytes w128 n ≡ bytes.now) }
    ensures none { IfNone result (length bytes.now ≢ 16) }
{
    match <[u8; 16]>::try_from(bytes) {
        Ok(bytes) => Some(u128::from_be_bytes(bytes)),
        Err(_) => None,
    }
}

impl Locator {
    /// Whether a stream can be opened to it: it is an IPv6 or IPv4 address with TCP.
    pub fn is_dialable(&self) -> bool
        ensures { result ≡ is_dialable self.now }
    {
        match self {
            Locator::V6 { proto, .. } => *proto == Proto::Tcp,
            Locator::V4 { proto, .. } => *proto == Proto::Tcp,
            Locator::Fqdn { .. } => false,
            Locator::Uri { .. } => false,
        }
    }
}

impl Plain for Address {
    ghost clones_are_same = { Prim.search rules };
}

impl Plain for Proto {
    ghost clones_are_same = { Prim.search rules };
}

impl Plain for Locator {
    ghost clones_are_same = { Prim.search rules };
}
