//! What may be done in a network beside its events.

use crate::event::Event;
use grasp_pool::PoolImage;
use grasp_types::Prefix;

/// An event, or one of two things that are no step of a node: a prefix in doubt is settled, or a node begins anew.
#[derive(Debug, Drop)]
pub enum Turn {
    /// An event.
    Event(Event),
    /// A prefix that a node has in doubt is free there again: its offer is never accepted.
    Settle { node: u8, prefix: Prefix },
    /// A node ends its life, and begins another one with this image of its pool: all its sessions and streams are gone.
    Restart { node: u8, image: PoolImage },
}
