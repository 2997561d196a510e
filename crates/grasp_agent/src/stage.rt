//! How far the opening calls of an agent of PrefixManager are.

ghost use Rattle.std.specs.Prelude.{◌≡◌};
ghost use Rattle.grasp_agent.specs.States.{is_open};

/// The opening call that is next, if one is left.
#[derive(Clone, Copy, Debug, PartialEq, Eq)]
pub(crate) enum Stage {
    /// It registers itself.
    Registering,
    /// It registers its objective.
    Declaring,
    /// It listens for the first time.
    Opening,
    /// The opening calls are done.
    Serving,
}

impl Stage {
    /// Whether the opening calls are done.
    pub(crate) fn is_open(self) -> bool
        ensures { result ≡ is_open self }
    {
        matches!(self, Stage::Serving)
    }
}
