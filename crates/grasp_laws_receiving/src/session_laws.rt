//! Laws of what a session receives and what it came to. They say nothing at run time.

ghost use Rattle.grasp_laws_receiving.specs.Finding.{SessionsAreFound};
ghost use Rattle.grasp_laws_receiving.specs.Outcomes.{OutcomesHaveCauses};
ghost use Rattle.grasp_laws_receiving.specs.Receiving.{MessagesAreReceived};
ghost use Rattle.grasp_laws_receiving.specs.Recording.{TranscriptsRecord};

/// What a session keeps of the messages that come, what it ignores and what is bad: exactly, for each message.
#[tactic(auto, using(crate::proofs::Receiving::messages_are_received))]
pub fn messages_are_received()
    ensures { MessagesAreReceived }
{}

/// A session has just the outcome whose cause its transcript shows, and none exactly where it goes on.
#[tactic(auto, using(crate::proofs::Outcomes::outcomes_have_causes))]
pub fn outcomes_have_causes()
    ensures { OutcomesHaveCauses }
{}

/// A handle names just the live session of its number at its place.
#[tactic(auto, using(crate::proofs::Finding::sessions_are_found))]
pub fn sessions_are_found()
    ensures { SessionsAreFound }
{}

/// A transcript has each message that was kept or said as an entry, the newest first, with the clock reading at which it was; it begins
/// with the request alone, and what ended it from outside is its mark.
#[tactic(auto, using(crate::proofs::Recording::transcripts_record))]
pub fn transcripts_record()
    ensures { TranscriptsRecord }
{}
