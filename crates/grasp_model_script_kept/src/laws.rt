//! Laws on the runs of scripts of networks whose nodes crash. They say nothing at run time.

ghost use Rattle.grasp_model_script_kept.specs.Laws.{EachKeptRunIsSafe, KeptRunsOrStop, KeptTextsAgree};

use grasp_laws_kept::kept_networks_are_safe;

/// However the lines of a script come out, in each network that they lead to negotiations are safe, floods that were read are real,
/// and prefixes of different nodes don't overlap, over all restarts, also at a crash.
pub fn each_kept_run_is_safe()
    ensures { EachKeptRunIsSafe }
{
    kept_networks_are_safe();
}

/// The run of a script has one text.
pub fn kept_texts_agree()
    ensures { KeptTextsAgree }
{}

/// The run of a script that ends sends never too much.
pub fn kept_runs_or_stop()
    ensures { KeptRunsOrStop }
{}
