//! How much a node logs.

ghost use Rattle.std.specs.Prelude.{◌≡◌};
ghost use Rattle.grasp_config.specs.Levels.{level_word, level_of};

/// How much a node writes to its log, in rising order.
#[derive(Clone, Copy, Debug, PartialEq, Eq)]
pub enum LogLevel {
    /// Nothing.
    Quiet,
    /// What happens to its prefixes, its wants and its visitors.
    Events,
    /// Also each message that comes or goes.
    Traffic,
}

impl LogLevel {
    /// The level that has this word, or `None` where none has it.
    #[tactic(auto, unfolding(crate::specs::Levels::level_of))]
    pub fn of(word: &[u8]) -> Option<LogLevel>
        ensures { result ≡ level_of word.now }
    {
        if word == b"quiet".as_slice() {
            Some(LogLevel::Quiet)
        } else if word == b"events".as_slice() {
            Some(LogLevel::Events)
        } else if word == b"traffic".as_slice() {
            Some(LogLevel::Traffic)
        } else {
            None
        }
    }

    /// The word for a level.
    pub fn word(self) -> &'static str
        ensures { result.now ≡ level_word self }
    {
        match self {
            LogLevel::Quiet => "quiet",
            LogLevel::Events => "events",
            LogLevel::Traffic => "traffic",
        }
    }
}
