//! The law of what doubters settle. It says nothing at run time.

ghost use Rattle.grasp_laws_settled.specs.Resolved.{EachDoubtIsResolved};

use grasp_laws_doubts::doubt_grounds_hold;
use grasp_laws_floods::initiators_tell_searches;
use grasp_laws_questions::questions_begin;

/// In each network that a run of a network of doubters comes to, each prefix that was settled was asked for: the node to which it was offered
/// has said that it never accepted it. And it is accepted never on the stream for which it was offered.
pub fn each_doubt_is_resolved()
    ensures { EachDoubtIsResolved }
{
    doubt_grounds_hold();
    questions_begin();
    initiators_tell_searches();
}
