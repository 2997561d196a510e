//! Laws of runs of a network. They say nothing at run time.

ghost use Rattle.grasp_laws_reports.specs.Agree.{RunsAgree, RunsGoOn, StopsAgree};

/// Two runs of the same events report the same and go through the same networks.
pub fn runs_agree()
    ensures { RunsAgree }
{}

/// An event that comes out stops no run of the same events for having sent too much.
pub fn stops_agree()
    ensures { StopsAgree }
{}

/// A run that stops has gone as any other run of the same events and more goes.
pub fn runs_go_on()
    ensures { RunsGoOn }
{}
