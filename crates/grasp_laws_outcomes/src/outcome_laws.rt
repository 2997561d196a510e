//! Laws of what events and scripts come to. They say nothing at run time.

ghost use Rattle.grasp_laws_outcomes.specs.Events.{EventsComeOut};
ghost use Rattle.grasp_laws_outcomes.specs.Scripts.{ScriptEventsFit, ScriptsRun};

use grasp_model_script::each_run_is_safe;

/// Each event that may be asked for comes out in each network that turns lead to, or sends too much.
#[tactic(auto, using(crate::proofs::Events::events_come_out))]
pub fn events_come_out()
    ensures { EventsComeOut }
{}

/// The event of each line of a script may be asked for, wherever the line stands.
#[tactic(auto, using(crate::proofs::Fitting::script_events_fit))]
pub fn script_events_fit()
    ensures { ScriptEventsFit }
{}

/// Each script has a run that ends, or one that sends too much.
pub fn scripts_run()
    ensures { ScriptsRun }
{
    each_run_is_safe();
}
