//! Who may open streams to a node.
ghost use Rattle.std.specs.Prelude.{◌≡◌};
ghost use Rattle.std.proofs.Common.{rules};
ghost use Rattle.grasp_io.specs.Guards.{is_in, same_first};

use grasp_types::{Address, List, Plain};

/// The addresses whose first `length` bits are those of `address`. A length above 32 or 128 counts as that.
#[derive(Clone, Copy, Debug, PartialEq, Eq)]
pub struct AddressRange {
    pub address: Address,
    pub length: u8,
}

impl Plain for AddressRange {
    ghost clones_are_same = { Prim.search rules };
}

impl AddressRange {
    /// Whether the address is one of these.
    pub fn holds(&self, address: &Address) -> bool
        ensures { result ≡ is_in self.now address.now }
    {
        match (self.address, *address) {
            (Address::V4(first), Address::V4(other)) => same_v4(self.length, first, other),
            (Address::V6(first), Address::V6(other)) => same_v6(self.length, first, other),
            _ => false,
        }
    }
}

// Whether the first bits are the same.
fn same_v4(length: u8, first: u32, other: u32) -> bool
    ensures { result ≡ same_first 32 length first other }
{
    let free = 32 - length.min(32);
    u64::from(first) >> free == u64::from(other) >> free
}

#[tactic(auto, using(crate::proofs::Ranges::none_same))]
fn same_v6(length: u8, first: u128, other: u128) -> bool
    ensures { result ≡ same_first 128 length first other }
{
    if length == 0 {
        return true;
    }
    let free = 128 - length.min(128);
    first >> free == other >> free
}

/// Who may open streams to a node, how many, and for how long they may be silent.
#[derive(Clone, Debug, Drop)]
pub struct Guard {
    /// Those who may. Where there is none, everybody may.
    pub allow: List<AddressRange>,
    /// The most open streams of one address.
    pub streams: u8,
    /// For how long a stream that a peer opened, and on which the node has sent nothing, may give no byte. Milliseconds.
    pub silence: u32,
}

impl Plain for Guard {
    ghost clones_are_same = { Prim.search rules };
}

impl Guard {
    /// Whether this address may open streams.
    pub fn lets_in(&self, address: &Address) -> bool {
        self.allow.slice().is_empty() || self.allow.slice().iter().any(|range| range.holds(address))
    }
}
