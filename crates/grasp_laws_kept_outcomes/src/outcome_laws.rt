//! Laws of what events and scripts come to where nodes crash. They say nothing at run time.

ghost use Rattle.grasp_laws_kept_outcomes.specs.Events.{KeptEventsComeOut};
ghost use Rattle.grasp_laws_kept_outcomes.specs.Scripts.{KeptScriptEventsFit, KeptScriptsRun};

use grasp_laws_outcomes::script_events_fit;
use grasp_model_script_kept::each_kept_run_is_safe;

/// Each event that may be asked for, and each crash, after any number of calls of the disk, comes out in each network that turns lead
/// to, or sends too much.
pub fn kept_events_come_out()
    ensures { KeptEventsComeOut }
{}

/// The event and the crash of each line of a script may be asked for, wherever the line stands.
pub fn kept_script_events_fit()
    ensures { KeptScriptEventsFit }
{
    script_events_fit();
}

/// Each script with crashes of fewer than 2^32 lines has a run that ends, or one that sends too much.
pub fn kept_scripts_run()
    ensures { KeptScriptsRun }
{
    script_events_fit();
    each_kept_run_is_safe();
}
