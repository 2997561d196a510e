//! What happens in a network whose nodes crash.

use grasp_disk::Left;
use grasp_model_network::Event;

/// What happens in a network whose nodes keep their pools on disks.
#[derive(Debug, Drop)]
pub enum KeptEvent {
    /// An event. The node's disk is asked before a call of the node's agent, and behind it; and behind a want and a return.
    Plain(Event),
    /// A node crashes at its agent's next call, once its disk has made so many calls and another is asked, or at the end of the call.
    /// Then it begins anew with what the crash has left on its disk.
    Crash { node: u8, calls: u64, left: Left },
}
