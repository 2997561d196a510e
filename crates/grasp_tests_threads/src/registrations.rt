//! A node, and calls that register agents at it.

use grasp_cbor::{Chars, OutOfMemory};
use grasp_model_node::NodePlan;
use grasp_types::{Address, ApiAnswer, ApiRefused, Call, Input, LinkLists, Locator, Proto, Reply};
use std::alloc::Global;

/// A node without links.
pub fn plan(alloc: Global) -> NodePlan {
    NodePlan {
        address: Address::V4(0x7f00_0001),
        locator: Locator::V4 {
            address: 0x7f00_0001,
            proto: Proto::Tcp,
            port: 7017,
        },
        links: LinkLists::new(alloc),
        seed: [7; 32],
        limit: 65535,
    }
}

/// The call that registers an agent of this name.
pub fn registration(alloc: Global, name: &str) -> Result<Input, OutOfMemory> {
    let name = Chars::of(alloc, name)?;
    Ok(Input::Api {
        asa: 0,
        call: Call::RegisterAsa { name },
    })
}

/// The number that an agent was given.
pub fn number(reply: &Reply) -> Option<u32> {
    match reply {
        Reply::Api(ApiAnswer::Asa(number)) => Some(*number),
        _ => None,
    }
}

/// Whether a call was refused since an agent has the name.
pub fn is_duplicate(reply: &Reply) -> bool {
    matches!(reply, Reply::Refused(ApiRefused::DuplicateAsa))
}
