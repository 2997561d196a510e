//! What an agent is to want.

ghost use Rattle.std.specs.Prelude.{◌≡◌, ◌≤◌, IfSome, IfNone};

use grasp_types::Locator;

/// A prefix that an agent is to want.
#[derive(Drop)]
pub struct WantPlan {
    /// The length that is asked for, at least 1.
    pub length: u8,
    /// The greatest length that is taken, from `length` to 128.
    pub longest: u8,
    /// Whom the agent asks.
    pub peer: Locator,
    ghost least: { 1 ≤ length },
    ghost ordered: { length ≤ longest },
    ghost most: { longest ≤ 128 },
}

impl WantPlan {
    /// A want of these lengths from this peer, or `None` where they aren't in order or out of range.
    pub fn of(length: u8, longest: u8, peer: Locator) -> Option<WantPlan>
        ensures found { IfSome result (λ want. (want.length ≡ length) × (want.longest ≡ longest) × (want.peer ≡ peer)) }
        ensures none { IfNone result (1 ≤ length → length ≤ longest → ¬ (longest ≤ 128)) }
    {
        if 1 <= length && length <= longest && longest <= 128 {
            return Some(WantPlan {
                length,
                longest,
                peer,
            });
        }
        None
    }
}
