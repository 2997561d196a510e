//! Laws of the answers of a table. They say nothing at run time.

ghost use Rattle.grasp_session.specs.Acts.{MessagesAreMade};
ghost use Rattle.grasp_session.specs.Answers.{TablesAnswerSo};

/// The message of an act is made of what `session` and `last` tell before it: so a caller can make it, see whether it
/// may be sent, and then say it.
#[tactic(auto, using(crate::proofs::Acts::messages_made))]
pub fn messages_are_made()
    ensures { MessagesAreMade }
{}

/// What a table answers by what it keeps, it answers of its sessions.
#[tactic(auto, using(crate::proofs::Replies::answer_so))]
pub fn tables_answer_so()
    ensures { TablesAnswerSo }
{}
