//! What is kept in the stores of these tests.

use grasp_agent::{Agent, PrefixAgent};
use grasp_disk::Disk;
use grasp_pool::RootPrefix;
use grasp_shelf::Shelf;
use grasp_types::{Locator, Prefix, Proto};

/// Where 2001:db8:: begins.
const FIRST: u128 = 0x2001_0db8 << 96;

/// 2001:db8::/48.
pub(crate) const ROOT: RootPrefix = RootPrefix {
    address: FIRST,
    length: 48,
};

/// The agent holds the root, and nothing is in doubt.
pub(crate) fn is_whole(agent: &PrefixAgent) -> bool {
    agent.pool().free(0) == Prefix::of(FIRST, 48) && agent.pool().doubtful(0).is_none()
}

/// The agent is to hand back the first /56. Then this is in doubt in its image, and eight pieces are free.
pub(crate) fn hand_back(agent: &mut PrefixAgent) -> Option<()> {
    let peer = Locator::V6 {
        address: 1,
        proto: Proto::Tcp,
        port: 7017,
    };
    agent.hand_back(Prefix::of(FIRST, 56)?, peer).ok()
}

/// So it is.
pub(crate) fn is_handed_back(agent: &PrefixAgent) -> bool {
    agent.pool().doubtful(0) == Prefix::of(FIRST, 56) && agent.pool().free(7).is_some()
}

/// The shelf is asked before the agent's next call.
pub(crate) fn ask_before<D: Disk>(shelf: &mut Shelf<D>, agent: &PrefixAgent) -> Option<()> {
    let call = agent.next().ok()?;
    shelf.before(agent, &call).ok()
}
