//! What an event comes to in a network whose nodes crash.

use grasp_model_network::Report;
use grasp_pool::PoolImage;

/// What an event comes to in a network whose nodes keep their pools on disks.
#[derive(Debug, Drop)]
pub enum KeptReport {
    /// What an event comes to.
    Plain(Report),
    /// The image with which a node has begun anew.
    Restarted(PoolImage),
}
