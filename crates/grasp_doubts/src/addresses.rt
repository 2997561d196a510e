//! The addresses of the nodes of a plan.

ghost use Rattle.std.specs.Prelude.{◌≡◌};
ghost use Rattle.grasp_model_network.specs.Setting.{script_address, script_locator, script_number};

use grasp_types::{Address, Locator, Proto};

/// The address of node k is this number and k: fd00::k.
const BEFORE_FIRST: u128 = 0xfd00_0000_0000_0000_0000_0000_0000_0000;

/// Every node listens on this port.
const PORT: u16 = 7017;

/// The number of the node's address.
fn number_of(node: u8) -> u128
    ensures { result ≡ script_number node }
{
    BEFORE_FIRST + u128::from(node)
}

/// The node's address.
pub(crate) fn address_of(node: u8) -> Address
    ensures { result ≡ script_address node }
{
    Address::V6(number_of(node))
}

/// Where the node listens.
pub(crate) fn locator_of(node: u8) -> Locator
    ensures { result ≡ script_locator node }
{
    Locator::V6 {
        address: number_of(node),
        proto: Proto::Tcp,
        port: PORT,
    }
}
