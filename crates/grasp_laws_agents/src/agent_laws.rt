//! What the nodes of a network keep for their agents of prefixes. They say nothing at run time.

ghost use Rattle.grasp_laws_agents.specs.Laws.{AgentsServe, SessionsAreOwned, OwnSessionsStay, OwnSessionsGoOn, GoneSessionsAreOwned, AgentsAreKept};

/// At each node the agent of prefixes is agent 1 and serves, and PrefixManager is its own, and listened for.
pub fn agents_serve()
    ensures { AgentsServe }
{}

/// The live sessions of agent 1 are negotiations of PrefixManager, and those of every other agent are not.
pub fn sessions_are_owned()
    ensures { SessionsAreOwned }
{}

/// Whatever comes to a node but a call of its agent of prefixes, this agent has the same live sessions after.
pub fn own_sessions_stay()
    ensures { OwnSessionsStay }
{}

/// Nor does it say anything in them then; nor does the beginning of a step.
pub fn own_sessions_go_on()
    ensures { OwnSessionsGoOn }
{}

/// What became of sessions that no agent had taken, or that another agent had, before they were gone.
pub fn gone_sessions_are_owned()
    ensures { GoneSessionsAreOwned }
{}

/// What each agent of prefixes has reserved is exactly what it returns and what the sessions in which it gives offer.
pub fn agents_are_kept()
    ensures { AgentsAreKept }
{}
