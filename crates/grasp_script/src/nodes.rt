//! Writing nodes by their numbers.

ghost use Rattle.std.specs.Prelude.{◌≡◌, ◌++◌, ◌∷◌, [], OnOk, OnErr, string_bytes};
ghost use Rattle.grasp_cbor.specs.Extends.{Extends};
ghost use Rattle.grasp_text.specs.Words.{spaced};
ghost use Rattle.grasp_script.specs.Calls.{node_word, peer_word, initiator_word, at_port};

use grasp_cbor::OutOfMemory;
use grasp_text::{push_number, push_word};
use grasp_types::{Address, Locator, Proto};

/// The address before that of node 1: node k has the address fd00::k.
const BEFORE_NODES: u128 = 0xfd00_0000_0000_0000_0000_0000_0000_0000;

/// The address of the node of the greatest number that there can be.
const LAST_NODE: u128 = 0xfd00_0000_0000_0000_0000_0000_0000_00ff;

/// The port on which each node listens.
const PORT: u16 = 7017;

/// Appends a blank, and the number of the node that has this address, or `-`.
fn push_node(out: &mut String, address: u128) -> Result<(), OutOfMemory>
    ensures text { OnOk result (string_bytes out.new ≡ string_bytes out.old ++ spaced (node_word address ∷ [])) }
    ensures err { OnErr result (Extends (string_bytes out.old) (string_bytes out.new)) }
{
    if BEFORE_NODES < address && address <= LAST_NODE {
        push_number(out, (address - BEFORE_NODES) as u64)
    } else {
        push_word(out, "-")
    }
}

/// Appends a blank, and the number of the node that listens at this address and port, or `-`.
fn push_at_port(out: &mut String, address: u128, port: u16) -> Result<(), OutOfMemory>
    ensures text { OnOk result (string_bytes out.new ≡ string_bytes out.old ++ spaced (at_port address port ∷ [])) }
    ensures err { OnErr result (Extends (string_bytes out.old) (string_bytes out.new)) }
{
    if port == PORT {
        push_node(out, address)
    } else {
        push_word(out, "-")
    }
}

/// Appends a blank, and the number of the node that listens at this locator, or `-`.
pub(crate) fn push_peer(out: &mut String, peer: &Locator) -> Result<(), OutOfMemory>
    ensures text { OnOk result (string_bytes out.new ≡ string_bytes out.old ++ spaced (peer_word peer.now ∷ [])) }
    ensures err { OnErr result (Extends (string_bytes out.old) (string_bytes out.new)) }
{
    match peer {
        Locator::V6 {
            address,
            proto: Proto::Tcp,
            port,
        } => push_at_port(out, *address, *port),
        Locator::V6 {
            address: _,
            proto: Proto::Udp,
            port: _,
        } => push_word(out, "-"),
        Locator::V4 { .. } => push_word(out, "-"),
        Locator::Fqdn { .. } => push_word(out, "-"),
        Locator::Uri { .. } => push_word(out, "-"),
    }
}

/// Appends a blank, and the number of the node that has this address, or `-`.
pub(crate) fn push_initiator(out: &mut String, initiator: Address) -> Result<(), OutOfMemory>
    ensures text { OnOk result (string_bytes out.new ≡ string_bytes out.old ++ spaced (initiator_word initiator ∷ [])) }
    ensures err { OnErr result (Extends (string_bytes out.old) (string_bytes out.new)) }
{
    match initiator {
        Address::V4(_) => push_word(out, "-"),
        Address::V6(address) => push_node(out, address),
    }
}
