//! What a call and its reply tell a doubter.

ghost use Rattle.std.specs.Prelude.{◌≡◌, option_copied};
ghost use Rattle.grasp_agent.specs.Replies.{answer_in, is_again, progress_in, refused_in, started_in};
ghost use Rattle.grasp_doubter.specs.Seeing.{polled};

use grasp_types::{ApiAnswer, ApiRefused, Call, Handle, Progress, Reply};

/// Whether the call is to be made again: the node had no room or no memory for it.
pub(crate) fn is_again(reply: &Reply) -> bool
    ensures { result ≡ is_again reply.now }
{
    matches!(
        reply,
        Reply::Refused(ApiRefused::OutboxFull | ApiRefused::OutOfMemory) | Reply::OutOfMemory
    )
}

/// Why the call was refused, if it was.
pub(crate) fn refused(reply: &Reply) -> Option<ApiRefused>
    ensures { result ≡ refused_in reply.now }
{
    match reply {
        Reply::Refused(refused) => Some(*refused),
        _ => None,
    }
}

/// The session that began.
pub(crate) fn started(reply: &Reply) -> Option<Handle>
    ensures { result ≡ started_in (answer_in reply.now) }
{
    match reply {
        Reply::Api(ApiAnswer::Started(handle)) => Some(*handle),
        _ => None,
    }
}

/// How a session stands.
pub(crate) fn progress(reply: &Reply) -> Option<&Progress>
    ensures { option_copied result ≡ progress_in (answer_in reply.now) }
{
    match reply {
        Reply::Api(ApiAnswer::Polled(progress)) => Some(progress),
        _ => None,
    }
}

/// The session that is polled.
pub(crate) fn polled(call: &Call) -> Option<Handle>
    ensures { result ≡ polled call.now }
{
    match call {
        Call::Poll { handle } => Some(*handle),
        _ => None,
    }
}
