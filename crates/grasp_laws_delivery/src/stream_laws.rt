//! What the streams of a network are like, and that what is queued for them can be sent. They say nothing at run time.

ghost use Rattle.grasp_laws_delivery.specs.Ready.{StreamsAreReady, StepsArePresent, EndedLivesStay};

use grasp_laws_node::ties_are_kept;

/// No two streams of a network that turns lead to share an end, and what each of its nodes has queued can be sent in order. The streams
/// that a node dialled, and those that its records know, are all there, each once.
pub fn streams_are_ready()
    ensures { StreamsAreReady }
{
    ties_are_kept();
}

/// Each step of an event in a network that turns lead to is made by a present life of its node.
pub fn steps_are_present()
    ensures { StepsArePresent }
{
    ties_are_kept();
}

/// A life that has ended stays as it is at its end, whatever turn is taken: no event, no settling and no restart changes its
/// node or its agent.
pub fn ended_lives_stay()
    ensures { EndedLivesStay }
{
    ties_are_kept();
}
