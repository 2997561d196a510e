//! What a client does, and what it asks.
ghost use Rattle.grasp_client.specs.Asking.{question_words};

/// What a client does.
#[derive(Clone, Copy, Debug, PartialEq, Eq)]
pub enum Task {
    /// It asks for all that the node tells of itself.
    Status,
    /// It asks to be told of events, and hears them until the node ends.
    Events,
    /// It asks the lines of its input.
    Talk,
    /// It asks the node to stop, and waits for its end.
    Stop,
}

/// A line that asks the node itself.
#[derive(Clone, Copy, Debug, PartialEq, Eq)]
pub enum Question {
    /// Which node and which protocol this is.
    Version,
    /// What it holds.
    State,
    /// How its wants stand.
    Wants,
    /// What its readers have read.
    Reads,
    /// What it has counted.
    Counters,
    /// To be told of events.
    Events,
    /// To end.
    Stop,
}

impl Question {
    ghost use Rattle.std.specs.Prelude.{◌≡◌};

    /// The line, without its end.
    pub fn words(self) -> &'static [u8]
        ensures { result.now ≡ question_words self }
    {
        match self {
            Question::Version => b"version",
            Question::State => b"state",
            Question::Wants => b"wants",
            Question::Reads => b"reads",
            Question::Counters => b"counters",
            Question::Events => b"events",
            Question::Stop => b"stop",
        }
    }
}
