//! Laws of the ranges of what a node queues. They say nothing at run time.

ghost use Rattle.grasp_laws_ranges.specs.Messages.{QueuedAreMessages};

/// Whatever its peers send, and whatever its agents call with arguments in range, all that a node queues for neighbours and streams
/// is messages in range, each of which encodes within the limit.
pub fn queued_are_messages()
    ensures { QueuedAreMessages }
{}
