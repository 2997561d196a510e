//! Laws on the definitions of a node. They say nothing at run time.

ghost use Rattle.grasp_model_node.specs.Added.{SameMessagesCome};
ghost use Rattle.grasp_laws_node.specs.Laws.{AnswersTheFirst, LeastIsAnswered};

/// A call refuses the first of all that holds, or wants memory where none does.
#[tactic(auto, using(crate::proofs::Refused::the_first))]
pub fn answers_the_first()
    ensures { AnswersTheFirst }
{}

/// The first refusal that holds has the least number of those that hold.
#[tactic(auto, using(crate::proofs::Refused::the_least))]
pub fn least_is_answered()
    ensures { LeastIsAnswered }
{}

/// Whatever bytes come on an open stream, there is one list of messages that they add.
pub fn same_messages_come()
    ensures { SameMessagesCome }
{}
