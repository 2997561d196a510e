//! What doubters ask, answer and settle. They say nothing at run time.

ghost use Rattle.grasp_laws_events.specs.Doubting.{AsksAreAnswered, DoubtsAreCalled, QuestionsAreAnswered, QuestionsEnd};
ghost use Rattle.grasp_laws_events.specs.Following.{DoubtersFollow};

/// A question of a prefix is taken exactly where there is no other one, the prefix is in doubt, and a step has offered it.
pub fn asks_are_answered()
    ensures { AsksAreAnswered }
{}

/// A question that comes is accepted exactly where the node knows that it never accepted the prefix.
pub fn questions_are_answered()
    ensures { QuestionsAreAnswered }
{}

/// A prefix is settled exactly where its question was accepted by the node that was asked, and each question that ends is over.
pub fn questions_end()
    ensures { QuestionsEnd }
{}

/// What a doubter has decided is its next call, then its question, and then its duties.
pub fn doubts_are_called()
    ensures { DoubtsAreCalled }
{}

/// The doubters of a network see what the agents of prefixes at their nodes call, settle what their own calls say, and are asked.
pub fn doubters_follow()
    ensures { DoubtersFollow }
{}
