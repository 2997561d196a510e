//! An agent that asks of doubts begins. They say nothing at run time.

ghost use Rattle.grasp_laws_questions.specs.Opening.{QuestionsBegin};

/// Each of its opening calls comes of a step of a node at the beginning of a life. Then it serves its objective alone.
pub fn questions_begin()
    ensures { QuestionsBegin }
{}
