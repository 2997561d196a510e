//! What a reply tells the crew.

ghost use Rattle.std.specs.Prelude.{◌≡◌, is_some};
ghost use Rattle.grasp_agent.specs.Replies.{answer_in, asa_in};
ghost use Rattle.grasp_crew.specs.Herald.{is_moving};
ghost use Rattle.grasp_crew.specs.Steward.{is_quiet};

use grasp_types::{ApiAnswer, Progress, Reply};

/// Whether it tells nothing new.
pub(crate) fn is_quiet(reply: &Reply) -> bool
    ensures { result ≡ is_quiet reply.now }
{
    matches!(
        reply,
        Reply::Api(ApiAnswer::NotYet | ApiAnswer::Polled(Progress::NotYet))
    )
}

/// Whether it moves a beacon on.
pub(crate) fn is_moving(reply: &Reply) -> bool
    ensures { result ≡ is_moving reply.now }
{
    matches!(reply, Reply::Api(ApiAnswer::Asa(_) | ApiAnswer::Done))
}

/// Whether an agent was registered.
pub(crate) fn is_registering(reply: &Reply) -> bool
    ensures { result ≡ is_some (asa_in (answer_in reply.now)) }
{
    matches!(reply, Reply::Api(ApiAnswer::Asa(_)))
}
