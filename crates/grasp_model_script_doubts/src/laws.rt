//! Laws on the runs of scripts of networks of doubters. They say nothing at run time.

ghost use Rattle.grasp_model_script_doubts.specs.Laws.{DoubtRunsOrStop, DoubtTextsAgree, EachDoubtRunIsSafe};

use grasp_laws_doubts::{doubted_are_reached, settlings_are_of_dead};
use grasp_model_script::each_network_is_safe;

/// However the lines of a script come out, in each network that they lead to negotiations are safe, floods that were read are real,
/// and prefixes of different nodes don't overlap. Each prefix that a doubter settles is one that is accepted never.
pub fn each_doubt_run_is_safe()
    ensures { EachDoubtRunIsSafe }
{
    doubted_are_reached();
    settlings_are_of_dead();
    each_network_is_safe();
}

/// The run of a script has one text.
pub fn doubt_texts_agree()
    ensures { DoubtTextsAgree }
{}

/// The run of a script that ends sends never too much.
pub fn doubt_runs_or_stop()
    ensures { DoubtRunsOrStop }
{}
