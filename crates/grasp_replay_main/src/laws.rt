//! Laws on what the tasks make. They say nothing at run time.
ghost use Rattle.grasp_replay_main.specs.Laws.{TasksAreFunctions, WholeInputsEndWell};

use grasp_laws_audit::audits_agree;
use grasp_model_script::{runs_or_stops, texts_agree};

/// A task makes one output of an input, with one status, which is `Ok` where the input is whole.
pub fn tasks_are_functions()
    ensures one { TasksAreFunctions }
    ensures well { WholeInputsEndWell }
{
    texts_agree();
    runs_or_stops();
    audits_agree();
}
