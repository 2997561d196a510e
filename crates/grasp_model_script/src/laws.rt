//! Laws on the runs of scripts. They say nothing at run time.

ghost use Rattle.grasp_model_script.specs.Laws.{
  NetworksAreListed,
  RunsOfLinesAreRuns,
  EachNetworkIsSafe,
  EachRunIsSafe,
  ScriptsRestartNobody,
  TextsAgree,
  RunsOrStops,
};

use grasp_laws_floods::read_floods_are_real;
use grasp_laws_negotiation::talks_are_safe;
use grasp_laws_network::events_keep_lives;
use grasp_laws_prefixes::prefixes_stay_apart;
use grasp_laws_reports::{runs_agree, stops_agree};
use grasp_script::texts_have_one_script;

/// A run of lines is a run of their events: a line that shows a node changes nothing.
pub fn runs_of_lines_are_runs()
    ensures { RunsOfLinesAreRuns }
{}

/// The networks of a run are all those on its way: wherever any of its first lines lead.
#[tactic(auto, using(crate::proofs::Listing::networks_are_listed))]
pub fn networks_are_listed()
    ensures { NetworksAreListed }
{}

/// In every network that events, settlings and restarts lead to, negotiations are safe, floods that were read are real, and prefixes of
/// different nodes don't overlap.
pub fn each_network_is_safe()
    ensures { EachNetworkIsSafe }
{
    talks_are_safe();
    read_floods_are_real();
    prefixes_stay_apart();
}

/// The lines of a script settle nothing and restart nobody: each node is in its first life.
pub fn scripts_restart_nobody()
    ensures { ScriptsRestartNobody }
{
    events_keep_lives();
}

/// However the lines of a script come out, in each network that they lead to negotiations are safe, floods that were read are real,
/// and prefixes of different nodes don't overlap.
pub fn each_run_is_safe()
    ensures { EachRunIsSafe }
{
    talks_are_safe();
    read_floods_are_real();
    prefixes_stay_apart();
}

/// The run of a script has one text, and one summary.
pub fn texts_agree()
    ensures { TextsAgree }
{
    runs_agree();
    stops_agree();
    texts_have_one_script();
}

/// The run of a script that ends sends never too much.
pub fn runs_or_stops()
    ensures { RunsOrStops }
{
    runs_agree();
    stops_agree();
    texts_have_one_script();
}
