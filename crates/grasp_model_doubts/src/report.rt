//! What an event comes to in a network of doubters.

use grasp_doubter::AskFault;
use grasp_model_network::Report;

/// What an event comes to in a network in which each node has a doubter.
#[derive(Debug, Drop)]
pub enum DoubtReport {
    /// What an event comes to; that of a doubter's call is told as that of an agent's.
    Plain(Report),
    /// Whether the doubter took the question.
    Ask(Result<(), AskFault>),
}
