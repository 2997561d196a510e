//! The prefixes in a network. They say nothing at run time.

ghost use Rattle.grasp_laws_prefixes.specs.Apart.{PrefixesStayApart};
ghost use Rattle.grasp_laws_prefixes.specs.Grounds.{Grounds};

use grasp_laws_agents::{
    agents_are_kept, agents_give, agents_move, agents_serve, calls_mean, gone_sessions_are_owned,
    own_sessions_go_on, sessions_are_owned,
};
use grasp_laws_delivery::{steps_are_present, streams_are_ready};
use grasp_laws_negotiation::{
    negotiations_are_in_order, negotiations_are_known, negotiations_are_talks,
    sessions_have_streams,
};
use grasp_laws_network::lives_are_kept;
use grasp_laws_node::ties_are_kept;
use grasp_laws_session::views_trail;

/// What the laws on which those of prefixes stand say, as one.
pub fn grounds_hold()
    ensures { Grounds }
{
    ties_are_kept();
    lives_are_kept();
    streams_are_ready();
    steps_are_present();
    agents_are_kept();
    agents_serve();
    sessions_are_owned();
    gone_sessions_are_owned();
    own_sessions_go_on();
    agents_give();
    agents_move();
    calls_mean();
    views_trail();
    sessions_have_streams();
    negotiations_are_talks();
    negotiations_are_known();
    negotiations_are_in_order();
}

/// Prefixes that are held by different nodes never overlap, and an offer whose outcome isn't known stays reserved or in doubt.
pub fn prefixes_stay_apart()
    ensures { PrefixesStayApart }
{
    grounds_hold();
}
