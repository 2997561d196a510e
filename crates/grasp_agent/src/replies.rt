//! What a reply tells an agent.

ghost use Rattle.std.specs.Prelude.{◌≡◌, option_copied};
ghost use Rattle.grasp_agent.specs.Replies.{is_again, refused_in, answer_in, is_answered, asa_in, is_done, started_in, incoming_in, progress_in};

use grasp_types::{ApiAnswer, ApiRefused, Handle, Progress, Reply};

/// Whether the call is to be made again: the node had no room or no memory for it.
pub(crate) fn is_again(reply: &Reply) -> bool
    ensures { result ≡ is_again reply.now }
{
    matches!(
        reply,
        Reply::Refused(ApiRefused::OutboxFull | ApiRefused::OutOfMemory) | Reply::OutOfMemory
    )
}

/// Why the call was refused, if it was.
pub(crate) fn refused(reply: &Reply) -> Option<ApiRefused>
    ensures { result ≡ refused_in reply.now }
{
    match reply {
        Reply::Refused(refused) => Some(*refused),
        _ => None,
    }
}

/// Whether the call was answered, however.
pub(crate) fn is_answered(reply: &Reply) -> bool
    ensures { result ≡ is_answered reply.now }
{
    matches!(reply, Reply::Api(_))
}

/// The number of the agent that was registered.
pub(crate) fn number(reply: &Reply) -> Option<u32>
    ensures { result ≡ asa_in (answer_in reply.now) }
{
    match reply {
        Reply::Api(ApiAnswer::Asa(number)) => Some(*number),
        _ => None,
    }
}

/// Whether the call is done.
pub(crate) fn is_done(reply: &Reply) -> bool
    ensures { result ≡ is_done (answer_in reply.now) }
{
    matches!(reply, Reply::Api(ApiAnswer::Done))
}

/// The session that began.
pub(crate) fn started(reply: &Reply) -> Option<Handle>
    ensures { result ≡ started_in (answer_in reply.now) }
{
    match reply {
        Reply::Api(ApiAnswer::Started(handle)) => Some(*handle),
        _ => None,
    }
}

/// The session that a peer began.
pub(crate) fn incoming(reply: &Reply) -> Option<Handle>
    ensures { result ≡ incoming_in (answer_in reply.now) }
{
    match reply {
        Reply::Api(ApiAnswer::Incoming { handle, .. }) => Some(*handle),
        _ => None,
    }
}

/// How a session stands.
pub(crate) fn progress(reply: &Reply) -> Option<&Progress>
    ensures { option_copied result ≡ progress_in (answer_in reply.now) }
{
    match reply {
        Reply::Api(ApiAnswer::Polled(progress)) => Some(progress),
        _ => None,
    }
}
