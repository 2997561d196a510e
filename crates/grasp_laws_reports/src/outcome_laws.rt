//! What polls tell, readings, closed streams, and the words of an agreement. They say nothing at run time.

ghost use Rattle.grasp_laws_reports.specs.Laws.{
  AgreedReportsTell,
  AgreedWordsTell,
  CutsAreFinal,
  CutsAreFinalOverTurns,
  OutcomesAreToldOnce,
  OutcomesAreToldOnceOverTurns,
  PollsTellOutcomes,
  ReadingsNeverFall,
};

use grasp_laws_delivery::streams_are_ready;
use grasp_laws_node::poll_means;

/// The outcome that an agent is told is that of the transcript of its live session, which is no longer live then.
pub fn polls_tell_outcomes()
    ensures { PollsTellOutcomes }
{
    poll_means();
}

/// A session whose outcome was told stays no longer live, whatever happens, and no other has its handle.
pub fn outcomes_are_told_once()
    ensures { OutcomesAreToldOnce }
{
    poll_means();
}

/// Nor is the outcome told again in that life where prefixes are settled and nodes begin anew.
pub fn outcomes_are_told_once_over_turns()
    ensures { OutcomesAreToldOnceOverTurns }
{
    poll_means();
}

/// Whatever happens, the reading of a node never falls.
pub fn readings_never_fall()
    ensures { ReadingsNeverFall }
{}

/// A side that was told that its stream is closed stays so, isn't opened, and is delivered nothing more.
pub fn cuts_are_final()
    ensures { CutsAreFinal }
{
    streams_are_ready();
}

/// So it is where a prefix is settled, and where a node begins anew.
pub fn cuts_are_final_over_turns()
    ensures { CutsAreFinalOverTurns }
{
    streams_are_ready();
}

/// A reply whose words tell of an agreement is that of a session that came to it, and the other words are those of what was agreed.
pub fn agreed_words_tell()
    ensures { AgreedWordsTell }
{}

/// An event whose report tells of an agreement is a poll of an agent whose session came to it.
pub fn agreed_reports_tell()
    ensures { AgreedReportsTell }
{
    poll_means();
}
