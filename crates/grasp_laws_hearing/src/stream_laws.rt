//! Laws of what comes on the streams of a node. They say nothing at run time.

ghost use Rattle.grasp_laws_hearing.specs.Messages.{MessagesAreHeard};
ghost use Rattle.grasp_laws_hearing.specs.Pieces.{PiecesAreHeard};
ghost use Rattle.grasp_laws_hearing.specs.Streams.{ClosingsAreTaken, OpeningsAreTaken};

/// What one message does on a stream, with a session and without: exactly, for each message.
#[tactic(auto, using(crate::proofs::Messages::messages_are_heard))]
pub fn messages_are_heard()
    ensures { MessagesAreHeard }
{}

/// The messages of a piece are heard one after the other, up to one that shuts the stream, and a fault behind them as a bad
/// message. More than 4294967295 bytes close the stream, and a session that is starved ends by that.
#[tactic(auto, using(crate::proofs::Pieces::pieces_are_heard))]
pub fn pieces_are_heard()
    ensures { PiecesAreHeard }
{}

/// A peer opens streams with odd numbers that aren't live, as long as fewer than 64 have a record.
pub fn openings_are_taken()
    ensures { OpeningsAreTaken }
{}

/// A closing breaks the session of its stream where that goes on, and takes the stream's record away.
pub fn closings_are_taken()
    ensures { ClosingsAreTaken }
{}
