//! What is so of the responses to discoveries and of cached locators in every network that turns lead to. They say
//! nothing at run time.

ghost use Rattle.grasp_laws_discovery.specs.Laws.{
  EachAnswerIsReal,
  EachCachedIsReal,
  EachFoundIsReal,
  EachResponseIsReal,
  LookedForIsSearched,
};
ghost use Rattle.grasp_laws_discovery.specs.Own.{NotedAnswersAreOwn};
ghost use Rattle.grasp_laws_discovery.specs.Sources.{ResponsesHaveSources};

use grasp_laws_delivery::{datagrams_are_messages, what_was_said_is_given};
use grasp_laws_floods::{discoveries_are_real, initiators_tell_searches};

/// Each answer that is noted was made to a discovery that was sent, with the locator of its node, which had the name registered
/// for this.
pub fn answers_are_real()
    ensures { EachAnswerIsReal }
{
    discoveries_are_real();
    datagrams_are_messages();
}

/// Each response that is said, sent or queued for a stream tells locators that were answered for what its search looks for.
pub fn responses_are_real()
    ensures responses { EachResponseIsReal }
    ensures searches { LookedForIsSearched }
{
    what_was_said_is_given();
    discoveries_are_real();
    initiators_tell_searches();
    datagrams_are_messages();
}

/// Each locator that a node has cached was answered by the node whose locator it is, to a discovery of the name and use under
/// which it is cached, and that node had the name registered for this.
pub fn cached_locators_are_real()
    ensures { EachCachedIsReal }
{
    what_was_said_is_given();
    discoveries_are_real();
    initiators_tell_searches();
    datagrams_are_messages();
}

/// And so was each locator that an agent's search is answered with.
pub fn found_locators_are_real()
    ensures { EachFoundIsReal }
{
    cached_locators_are_real();
}

/// Each response that a step queues is the node's own answer, tells locators that it had cached, or came to it and is sent on
/// unchanged.
pub fn responses_have_sources()
    ensures { ResponsesHaveSources }
{}

/// Each discovery that an event answers, and that is noted as answered, is answered with the session number and the initiator that
/// it has, and with the locator of its node alone.
pub fn noted_answers_are_own()
    ensures { NotedAnswersAreOwn }
{
    datagrams_are_messages();
}
