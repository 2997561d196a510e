//! What an agent of PrefixManager is at the end of its life, by which images it may be opened anew, and what settling keeps.

ghost use Rattle.grasp_laws_agent.specs.Reopening.{KeptAgentsMayReopen, MayReopenRetired};
ghost use Rattle.grasp_laws_agent.specs.Retiring.{AgentsRetire, SettlingKeeps};

/// At the end of its life an agent holds nothing and has nothing more to offer. What it offered and what it had in doubt stays
/// listed, what was to be offered doesn't, and all that is true of every agent is still true.
pub fn agents_retire()
    ensures { AgentsRetire }
{}

/// Where a doubtful prefix is settled, all that is true of every agent is still true.
pub fn settling_keeps()
    ensures { SettlingKeeps }
{}

/// An agent may be opened anew with what it has: with all that is free, what is reserved or in doubt being in doubt; and, once
/// nothing is to be offered, with all that is free then.
pub fn agents_may_reopen()
    ensures now { KeptAgentsMayReopen }
    ensures retired { MayReopenRetired }
{}
