//! Whether a socket has something to give.

/// What is known of a socket. The system reports each change once, so what it reported is kept until a call finds nothing more.
#[derive(Clone, Copy, Debug, PartialEq, Eq)]
pub(crate) enum Readiness {
    /// It has nothing until the system reports it.
    Idle,
    /// It may have something to give at once.
    Ready,
    /// A try failed, so the next one comes after a wait.
    Later,
}

impl Readiness {
    /// Whether a try may give something at once.
    pub(crate) fn is_ready(self) -> bool {
        self == Readiness::Ready
    }

    /// The same after a wait: what was put off is tried again.
    pub(crate) fn after_wait(self) -> Readiness {
        match self {
            Readiness::Idle => Readiness::Idle,
            Readiness::Ready | Readiness::Later => Readiness::Ready,
        }
    }
}
