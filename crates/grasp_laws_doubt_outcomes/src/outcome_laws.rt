//! Laws of what events and scripts come to in networks of doubters. They say nothing at run time.

ghost use Rattle.grasp_laws_doubt_outcomes.specs.Events.{DoubtEventsComeOut};
ghost use Rattle.grasp_laws_doubt_outcomes.specs.Listed.{DoubtNetworksAreListed};
ghost use Rattle.grasp_laws_doubt_outcomes.specs.Scripts.{DoubtScriptEventsFit, DoubtScriptsRun};

use grasp_laws_doubts::doubt_grounds_hold;
use grasp_laws_floods::initiators_tell_searches;
use grasp_laws_outcomes::script_events_fit;
use grasp_laws_questions::questions_begin;
use grasp_model_script_doubts::each_doubt_run_is_safe;

/// Each event that may be asked for, each call of a doubter that is there and each question comes out in each network that events lead
/// to, or sends too much.
pub fn doubt_events_come_out()
    ensures { DoubtEventsComeOut }
{
    doubt_grounds_hold();
    questions_begin();
    initiators_tell_searches();
}

/// What each line of a script does may be asked for, wherever the line stands.
pub fn doubt_script_events_fit()
    ensures { DoubtScriptEventsFit }
{
    script_events_fit();
}

/// Each script of doubters has a run that ends, or one that sends too much.
pub fn doubt_scripts_run()
    ensures { DoubtScriptsRun }
{
    doubt_events_come_out();
    doubt_script_events_fit();
    each_doubt_run_is_safe();
}

/// The networks of a run of doubters are all those on its way, also that before a settling, and what is said of its settlings is said of each.
#[tactic(auto, using(crate::proofs::Listed::doubt_networks_are_listed))]
pub fn doubt_networks_are_listed()
    ensures { DoubtNetworksAreListed }
{}
