//! What a visitor's line is answered.

ghost use Rattle.std.specs.Prelude.{◌≡◌};
ghost use Rattle.grasp_service_visits.specs.Parts.{is_later};

use grasp_control::PlainAnswer;
use grasp_types::Reply;

/// What a visitor's line is answered.
#[derive(Drop)]
pub enum Answer {
    /// The node's reply to its call.
    Replied(Reply),
    /// Some words and no more.
    Plain(PlainAnswer),
    /// What the node holds.
    State,
    /// How its wants stand.
    Wants,
    /// What its readers have read.
    Reads,
    /// What was counted.
    Counters,
    /// Which node and which protocol this is.
    Version,
    /// Nothing yet: the call is made again.
    Later,
}

impl Answer {
    /// Whether it is to be told later.
    pub(crate) fn is_later(&self) -> bool
        ensures { result ≡ is_later self.now }
    {
        matches!(self, Answer::Later)
    }
}
