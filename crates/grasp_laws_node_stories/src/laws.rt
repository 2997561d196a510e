//! What happens on each stream of a node in a step. They say nothing at run time.

ghost use Rattle.grasp_laws_node_stories.specs.Acceptances.{AcceptancesAreCalls, EndedSessionsStay};
ghost use Rattle.grasp_laws_node_stories.specs.Stories.{ClearStreamsAreKept, StreamsHaveStories};

/// In each step of a node each stream has a story: what was heard and said on it, and how its session's transcript
/// changed.
pub fn streams_have_stories()
    ensures { StreamsHaveStories }
{}

/// A stream that is open has a session that goes on or never had one, and each step leaves it so.
pub fn clear_streams_are_kept()
    ensures { ClearStreamsAreKept }
{}

/// A step of a node says an acceptance on a stream exactly where it is an agent's call that accepts in the session of
/// that stream and is done.
pub fn acceptances_are_calls()
    ensures { AcceptancesAreCalls }
{}

/// The session in which a call that ends it is done is live before the call and after it, on one stream.
pub fn ended_sessions_stay()
    ensures { EndedSessionsStay }
{}
